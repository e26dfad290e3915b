// The search: of the stored pages in a range, the one with the highest score.
ghost use Rattle.std.specs.Prelude.{◌≡◌, ◌-◌};
ghost use Rattle.protocol.specs.Search.{score_at, threshold_of, match_of, eligible, best_of};
ghost use Rattle.library.specs.Search.{best_in, Covered};

use crate::index;
use protocol::{Match, numbers};

/// The threshold of a level: the n-th is level n's; 0 where there is none. Level 0, which no reader has, gets the first.
pub fn threshold_of(thresholds: &[u16], level: u8) -> u16
    ensures { result ≡ threshold_of thresholds.now level }
{
    let at = usize::from(level).saturating_sub(1);
    thresholds.get(at).copied().unwrap_or(0)
}

// The best of the pages from start to before end. A score is held against one number, the least that is better: the threshold at first, and then one more than
// the best score, so that of equal scores the lowest page's stays. Most scores do not reach it, so it is asked before the index. Beside it only the best page is
// held, since the compiler has few registers for the loop: an option of a match there takes a sixth more instructions.
fn best_of(index: &[u8], scores: &[u16], threshold: u16, start: usize, end: usize) -> Option<Match>
    requires { Covered index.now scores.now end }
    ensures { match_of result ≡ best_of
        (eligible index.now scores.now threshold) (score_at scores.now) start (end - start) }
{
    let mut least = u32::from(threshold);
    let mut page = 0;
    for p in start..end {
        let score = u32::from(scores[p]);
        if least <= score && index::bit_at(index, p) {
            least = score + 1;
            page = p as u16;
        }
    }
    if u32::from(threshold) < least {
        Some(Match {
            page,
            score: (least - 1) as u16,
        })
    } else {
        None
    }
}

/// The best of the pages from start to before start + count, cut at the last score; none where the scores are too many, or the index too short for them. The sum
/// of two 16-bit numbers is taken in full.
pub fn best(index: &[u8], scores: &[u16], threshold: u16, start: u16, count: u16) -> Option<Match>
    ensures { match_of result ≡ best_in index.now scores.now threshold start count }
{
    let pages = scores.len();
    if numbers::MOST_PAGES < pages || index.len() < pages.div_ceil(8) {
        return None;
    }
    let from = usize::from(start);
    let end = pages.min(from + usize::from(count));
    best_of(index, scores, threshold, from, end)
}
