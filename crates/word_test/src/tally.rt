//! What tests come to.

ghost use Rattle.std.specs.Prelude.{◌≡◌, ◌&&◌};
ghost use Rattle.word_test.specs.Tested.{fresh_tally, scored, tally_after};

use t65_reports::Score;

/// What the tests of a suite have come to so far.
#[derive(Clone, Copy)]
pub struct Tally {
    /// How many tests there are, those of suites before it among them.
    pub count: u64,
    /// Those of the suite.
    pub score: Score,
    /// Whether all tests of the suite pass.
    pub all_pass: bool,
}

/// Returns the tally before a suite, after so many tests of others.
pub fn fresh_tally(count: u64) -> Tally
    ensures { result ≡ fresh_tally count }
{
    Tally {
        count,
        score: Score {
            passed: 0,
            failed: 0,
            earned: 0,
            worth: 0,
        },
        all_pass: true,
    }
}

/// Returns the score after one more test, which passes or not, and is worth so many points.
fn scored(passes: bool, points: u64, score: Score) -> Score
    ensures { result ≡ scored passes points score }
{
    let worth = score.worth.saturating_add(points);
    if passes {
        Score {
            passed: score.passed.saturating_add(1),
            failed: score.failed,
            earned: score.earned.saturating_add(points),
            worth,
        }
    } else {
        Score {
            passed: score.passed,
            failed: score.failed.saturating_add(1),
            earned: score.earned,
            worth,
        }
    }
}

/// Returns the tally after one more test, which passes or not, and is worth so many points.
pub fn tally_after(passes: bool, points: u64, tally: Tally) -> Tally
    ensures { result ≡ tally_after passes points tally }
{
    Tally {
        count: tally.count.saturating_add(1),
        score: scored(passes, points, tally.score),
        all_pass: tally.all_pass && passes,
    }
}
