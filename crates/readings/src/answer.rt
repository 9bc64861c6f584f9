ghost use Rattle.std.specs.Prelude.{◌∷◌, []};
ghost use Rattle.readings.specs.Answers.{Answered};

use layout::refusal::Refusal;

// "A single id is a list of one word." What a reading gives is its answer's length in words.
pub fn answer_one(id: u64, area: &mut [u64]) -> Result<usize, Refusal>
    ensures { Answered (id ∷ []) area.old result area.new }
{
    if area.len() < 1 {
        return Err(Refusal::ShortAnswerArea);
    }
    area[0] = id;
    Ok(1)
}
