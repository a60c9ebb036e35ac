//! Coming back to a state that was saved.

ghost use Rattle.std.specs.Prelude.{◌≡◌};
ghost use Rattle.bus.specs.Pages.{AreSameBelow};
ghost use Rattle.model.specs.Checkpoint.{checkpoint_of, state_at, saved_of, CanPutBack};

use crate::checkpoint::Checkpoint;
use crate::machine::Machine;
use bus::Stamps;
use registers::Registers;

impl Machine {
    /// Saves what leads back to this state. Does not allocate. Source: mos65.
    pub fn save(&self, into: &mut Checkpoint)
        ensures { into.new ≡ checkpoint_of self.now }
    {
        self.processor.bus.save(&mut into.bus);
        self.save_processor(into);
    }

    /// Saves the same, but copies only the pages whose stamp is at least `since`. In all other
    /// pages memory has to be what `into` holds. Does not allocate.
    pub fn save_pages(&self, into: &mut Checkpoint, stamps: &Stamps, since: u32)
        requires { AreSameBelow since stamps.now into.old.bus.memory self.now.bus.memory }
        ensures { into.new ≡ checkpoint_of self.now }
    {
        self.processor.bus.save_pages(&mut into.bus, stamps, since);
        self.save_processor(into);
    }

    /// Saves the rest, once the bus is saved.
    #[tactic(auto, unfolding(model::specs::Checkpoint::checkpoint_of))]
    fn save_processor(&self, into: &mut Checkpoint)
        requires { into.old.bus ≡ saved_of self.now.bus }
        ensures { into.new ≡ checkpoint_of self.now }
    {
        into.regs = self.processor.regs.to_regs();
        into.irq = self.processor.irq;
        into.nmi = self.processor.nmi;
        into.cycles = self.processor.cycles;
    }

    /// Puts back what a checkpoint holds, and cuts both lists of the console to its lengths. Does
    /// not allocate. Source: mos65.
    #[tactic(auto, unfolding(model::specs::Checkpoint::state_at))]
    pub fn restore(&mut self, old: &Checkpoint)
        requires { CanPutBack old.now.bus self.old.bus }
        ensures { self.new ≡ state_at old.now self.old }
    {
        self.processor.bus.restore_saved(&old.bus);
        self.processor.regs = Registers::of(old.regs);
        self.processor.irq = old.irq;
        self.processor.nmi = old.nmi;
        self.processor.cycles = old.cycles;
    }
}
