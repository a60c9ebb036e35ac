//! Texts and data of any length, as C is told.

ghost use Rattle.std.specs.Prelude.{◌≡◌, length, take};
ghost use Rattle.mos65_c.specs.Answers.{written};

/// Writes the beginning for which `out` has room, and tells how long the whole is.
pub fn tell(text: &[u8], out: &mut [u8], count: &mut usize)
    ensures whole { count.new ≡ length text.now }
    ensures front { out.new ≡ written (take (length out.old) text.now) out.old }
{
    *count = text.len();
    let shown = text.len().min(out.len());
    out[..shown].copy_from_slice(&text[..shown]);
}
