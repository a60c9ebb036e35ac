//! Where control comes in.

ghost use Rattle.std.specs.Prelude.{◌≡◌, ◌+◌, ◌++◌, ◌≤◌, length};
ghost use Rattle.reached.specs.Reached.{vectors, word_of};

use arrayvec::ArrayVec;
use bus::Image;

/// The words of vectors: at most three.
pub type Words = ArrayVec<u16, 3>;

/// Puts the word of two bytes behind others, if both are there.
fn put_word(words: &mut Words, low: Option<u8>, high: Option<u8>)
    requires { length words.old.items ≤ 2 }
    ensures words { words.new.items ≡ words.old.items ++ word_of low high }
    ensures len { length words.new.items ≤ length words.old.items + 1 }
{
    if let (Some(low), Some(high)) = (low, high) {
        words.push(low as u16 + 256 * high as u16);
    }
}

/// Returns the words of the three vectors, NMI, reset and IRQ, as far as an image has both bytes of
/// them. Source: MCS6500 manual, chapter 9.
pub fn vectors(image: &Image) -> Words
    ensures { result.items ≡ vectors image.now }
{
    let mut words = Words::new();
    put_word(&mut words, image.get(0xfffa), image.get(0xfffb));
    put_word(&mut words, image.get(0xfffc), image.get(0xfffd));
    put_word(&mut words, image.get(0xfffe), image.get(0xffff));
    words
}
