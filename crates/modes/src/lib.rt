//! The addresses of operands.
//!
//! The crate owns effective addresses. `resolve` is one equation with the definition, in
//! `Operand.antt` of `model`, and needs no lemma.
#![tactic(auto)]

ghost use Rattle.std.specs.Prelude.{◌≡◌, ◌+◌, ◌%◌};
ghost use Rattle.model.specs.Operand.{address_at, address_in_page, effective_address, jump_target};

use bus::{Bus, Profile};
pub use model::{EffectiveAddress, Mode, Regs};

/// An effective address, and whether finding it crossed a page.
pub type Place = EffectiveAddress;

/// Returns the effective address of the instruction at PC, and whether finding it crossed a page.
///
/// The address is that of the next byte for an immediate operand, the target of a branch, and 0 if
/// there is no operand. Reads plain memory alone, never the port. Source: MCS6500 manual, chapters
/// 4 to 6; mos65 for what profile C adds.
#[inline(always)]
#[tactic(auto, unfolding(model::specs::Operand::effective_address))]
pub fn resolve(bus: &Bus, regs: &Regs, mode: Mode) -> Place
    ensures { result ≡ effective_address bus.now regs.now mode }
{
    let next = regs.pc.wrapping_add(1);
    match mode {
        Mode::Imp | Mode::Acc => EffectiveAddress::straight(0),
        Mode::Imm => EffectiveAddress::straight(next),
        Mode::Zp => EffectiveAddress::straight(bus.peek(next) as u16),
        Mode::ZpX => EffectiveAddress::straight(bus.peek(next).wrapping_add(regs.x) as u16),
        Mode::ZpY => EffectiveAddress::straight(bus.peek(next).wrapping_add(regs.y) as u16),
        Mode::Abs => EffectiveAddress::straight(address_at(bus, next)),
        Mode::AbsX => EffectiveAddress::indexed(address_at(bus, next), regs.x),
        Mode::AbsY => EffectiveAddress::indexed(address_at(bus, next), regs.y),
        Mode::IndX => {
            let pointer = bus.peek(next).wrapping_add(regs.x);
            EffectiveAddress::straight(address_in_page(bus, pointer as u16))
        }
        Mode::IndY => EffectiveAddress::indexed(
            address_in_page(bus, bus.peek(next) as u16),
            regs.y,
        ),
        Mode::Ind => EffectiveAddress::straight(jump_target(bus, address_at(bus, next))),
        Mode::Rel => EffectiveAddress::branch_target(regs.pc.wrapping_add(2), bus.peek(next)),
        Mode::IndZ => EffectiveAddress::straight(address_in_page(bus, bus.peek(next) as u16)),
    }
}

/// Returns two bytes of plain memory as an address, the low byte first. $0000 comes after $FFFF.
#[inline(always)]
#[tactic(auto, unfolding(model::specs::Operand::address_at))]
pub fn address_at(bus: &Bus, address: u16) -> u16
    ensures { result ≡ address_at bus.now address }
{
    let low = bus.peek(address);
    let high = bus.peek(address.wrapping_add(1));
    low as u16 + 256 * high as u16
}

/// Returns two bytes of one page as an address: after the page's last byte comes its first.
#[inline(always)]
#[tactic(auto, unfolding(model::specs::Operand::address_in_page))]
fn address_in_page(bus: &Bus, address: u16) -> u16
    ensures { result ≡ address_in_page bus.now address }
{
    let low = bus.peek(address);
    let high = bus.peek((address & 0xff00) + (address.wrapping_add(1) & 0xff));
    low as u16 + 256 * high as u16
}

/// Returns the address in the pointer of JMP indirect.
///
/// Profile N reads both bytes in the pointer's page; profile C crosses the page.
#[inline(always)]
#[tactic(auto, unfolding(model::specs::Operand::jump_target))]
fn jump_target(bus: &Bus, pointer: u16) -> u16
    ensures { result ≡ jump_target bus.now.map.profile bus.now pointer }
{
    match bus.profile() {
        Profile::N => address_in_page(bus, pointer),
        Profile::C => address_at(bus, pointer),
    }
}
