// One result of a field body (RFC 8601: resinfo): its steps, read at places. Its grammar is in result_rules, its method in
// result_method, its reason and the labels of its properties in result_parts, property values in result_values, the table in result_table.
#![tactic(auto)]

ghost use Rattle.std.specs.Prelude.{◌≡◌, drop};
ghost use Rattle.result_steps.specs.Steps.{is_end, end_of, step_from};

use result_values::Value;

// What stands behind a method, a reason or a property: a property, by the places of its names, its value and the place after it; the end of
// the result, where ";" or the end of the body comes after the longest space; or neither, and the body is not well-formed (number 9).
// No Option or Result: document 01 wants the enum of values inside the case of a property, beside done and refused.
#[derive(Drop)]
pub enum Step {
    Property {
        type_start: usize,
        type_end: usize,
        name_start: usize,
        name_end: usize,
        value: Value,
        end: usize,
    },
    Done,
    Refused,
}

// Whether ";" or the end comes next.
fn is_closed(s: &[u8], at: usize) -> bool
    ensures { result ≡ is_end (drop at s.now) }
{
    at >= s.len() || s[at] == b';'
}

// The end of a result, or neither.
fn end_of(closed: bool) -> Step
    ensures { result ≡ end_of closed }
{
    if closed { Step::Done } else { Step::Refused }
}

// The next step of a result, behind a part that ends at a place, where the space behind it ends at `a`.
pub fn step_from(s: &[u8], at: usize, a: usize) -> Step
    ensures { result ≡ step_from s.now at a }
{
    let Some(label) = result_parts::label_from(s, at, a) else {
        return end_of(is_closed(s, a));
    };
    let Some(found) = result_values::value_at(s, label.value) else {
        return Step::Refused;
    };
    Step::Property {
        type_start: label.type_start,
        type_end: label.type_end,
        name_start: label.name_start,
        name_end: label.name_end,
        value: found.value,
        end: found.end,
    }
}
