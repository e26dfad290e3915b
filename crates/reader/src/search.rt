// Search (request [8]), by the chip's scores and thresholds.
ghost use Rattle.std.specs.Prelude.{◌≡◌};
ghost use Rattle.protocol.specs.Search.{match_of, search_of};
ghost use Rattle.protocol.specs.Commands.{search_for};
ghost use Rattle.reader.specs.Answers.{answer_in};
ghost use Rattle.reader.specs.Search.{AnswersMatch};
ghost use Rattle.reader.specs.Memory.{Kept, reader_in, chip_at, said_of, obeyed};

use crate::answers::Answer;
use crate::buffers::Buffer;
use crate::memory::Sound;
use library::search;
use protocol::Match;
use protocol::codes::Code;
use rules::settings;

// Page and score of what is found; 09h, page 0 and score 0 where none is.
fn answer_of(found: Option<Match>) -> Answer
    ensures { AnswersMatch result (match_of found) }
{
    match found {
        Some(best) => {
            let [page1, page2] = best.page.to_be_bytes();
            let [score1, score2] = best.score.to_be_bytes();
            Answer::Match(Code::Done, [page1, page2, score1, score2])
        }
        None => Answer::Match(Code::NotFound, [0; 4]),
    }
}

impl Sound<'_> {
    // The best of the stored pages from start on, by the threshold of the level in force.
    fn find(&self, start: u16, count: u16) -> Option<Match>
        ensures { match_of result
            ≡ search_of (chip_at self.now.chip) self.now.settings.now.level (reader_in self.now).guarded start count }
    {
        let threshold = search::threshold_of(self.chip.thresholds, self.settings.level);
        search::best(self.index, self.chip.scores, threshold, start, count)
    }

    // Search (buffer, start, count).
    pub(crate) fn search_for(&mut self, number: u8, start: u16, count: u16) -> Result<Answer, Code>
        ensures kept { Kept self.old self.new }
        ensures obeyed { said_of (answer_in result) self.new ≡ obeyed self.old (search_for number start count) }
    {
        let buffer = Buffer::try_from(number)?;
        if self.chip.scores.len() <= usize::from(start) {
            return Err(Code::BadPage);
        }
        if !self.is_filled(buffer) {
            return Err(Code::NothingThere);
        }
        let found = self.find(start, count);
        *self.settings = settings::remembered(*self.settings, u8::from(found.is_some()));
        Ok(answer_of(found))
    }
}
