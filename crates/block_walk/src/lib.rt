// A reader that holds a header block and a place in it, and gives the block's fields one at a time.
//
// A step from a place gives the first field that starts there or later, by four places, or else the last answer of the block:
//   0  all fields were given: place 0
//   1  the block has more than 65,536 bytes, and no field of it is given: place 0
//   2  a CR without LF, an LF without CR, or a last line without CRLF: that byte, or the block length
//   3  an empty line, a first line starting with space or tab, or a field that lacks name or colon: the start of the line
//   4  a 513th field: its start
// The fields are those of one walk from the front, up to the first refusal. So a step from a place that was made up never takes the inside
// of a field for a field.
//
// Cost: since a place may be made up, every step goes over the block from the front, up to the field that it gives; so does `passed`, which
// has to find the field's end. A host that has a field goes on by `moved` to its end, which costs nothing by itself.
#![tactic(auto)]

ghost use Rattle.std.specs.Prelude.{◌≡◌};
ghost use Rattle.block_walk_rules.specs.Steps.{step_from, past_from};

use block_walk_rules::Step;

mod steps;

// A step from any place of a block, or past it.
pub fn field_from(block: &[u8], from: usize) -> Step
    ensures { result ≡ step_from block.now from }
{
    steps::step_from(block, from)
}

// The end of the field that a step from a place gives; the place itself where that step gives the last answer.
pub fn place_past(block: &[u8], from: usize) -> usize
    ensures { result ≡ past_from block.now from }
{
    match field_from(block, from) {
        Step::Field { end, .. } => end,
        Step::Last { .. } => from,
    }
}

// A block and a place in it, from which the next step goes.
#[derive(Drop)]
pub struct Fields<'a> {
    pub block: &'a [u8],
    pub at: usize,
}

impl<'a> Fields<'a> {
    // A reader at the front of a block.
    pub fn new(block: &'a [u8]) -> Fields<'a>
        ensures { (result.block ≡ block.entry) × (result.at ≡ 0) }
    {
        Fields { block, at: 0 }
    }

    // A step from the reader's place.
    pub fn next(self) -> Step
        ensures { result ≡ step_from self.entry.block.now self.entry.at }
    {
        field_from(self.block, self.at)
    }

    // The reader at another place.
    pub fn moved(self, at: usize) -> Fields<'a>
        ensures { (result.block ≡ self.entry.block) × (result.at ≡ at) }
    {
        Fields {
            block: self.block,
            at,
        }
    }

    // The reader past the field that a step gives; the same reader where that gives the last answer.
    pub fn passed(self) -> Fields<'a>
        ensures { (result.block ≡ self.entry.block) × (result.at ≡ past_from self.entry.block.now self.entry.at) }
    {
        let end = place_past(self.block, self.at);
        Fields {
            block: self.block,
            at: end,
        }
    }
}
