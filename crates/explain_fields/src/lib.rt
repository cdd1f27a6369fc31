// The line of a field in the report of a block, in words.
//
// `put_field(l, out, to)` says the line of a field by its columns behind the first, any bytes, in words (`field_words` in explain_rules). It stores as much of that as there is
// room for in `out` from `to` on, changes no other byte, and returns the place after the whole text, at most the largest place, which no buffer reaches.
#![tactic(auto)]

ghost use Rattle.std.specs.Prelude.{◌≡◌, [], ◌∷◌, ◌++◌};
ghost use Rattle.base_sequences.specs.Stored.{Clipped};
ghost use Rattle.base_readers.specs.Texts.{bytes};
ghost use Rattle.text_write.specs.Phrases.{phrase};
ghost use Rattle.explain_rules.specs.Explained.{shown, whose_words, answer_words, count_words, field_words};
ghost use Rattle.explain_fields.specs.Internal.{whoses, answers, results, results_words, whose_on, answer_on};

// The place of a count among the phrases of `put_results`.
#[tactic(auto, unfolding(text_write::specs::Phrases::phrase, text_write::specs::Phrases::start, base_readers::specs::Readers::run, crate::specs::Internal::results_words))]
fn results_place(w: &[u8]) -> usize
    ensures { phrase result results ≡ results_words w.now }
{
    if text_compare::exact::is_same(w, b"1") {
        return 0;
    }
    1
}

// What is behind a count that is not 0.
fn put_results(w: &[u8], out: &mut [u8], to: usize) -> usize
    ensures { Clipped out.old to (results_words w.now) out.new result }
{
    text_write::phrases::put_phrase(
        b" result of a newer version or not known: not shown| results of a newer version or not known: not shown",
        results_place(w),
        out,
        to,
    )
}

// The count itself.
fn put_counted(w: &[u8], out: &mut [u8], to: usize) -> usize
    ensures { Clipped out.old to (bytes "; " ++ shown w.now) out.new result }
{
    let a = text_write::put_part(b"; ", out, to);
    explain_texts::put_text(w, out, a)
}

// How many results are not shown, by a column that counts them.
fn put_count(w: &[u8], out: &mut [u8], to: usize) -> usize
    ensures { Clipped out.old to (count_words w.now) out.new result }
{
    if text_compare::exact::is_same(w, b"0") {
        return to;
    }
    let a = put_counted(w, out, to);
    put_results(w, out, a)
}

// The place of an answer among the phrases of `put_answer`.
#[tactic(auto, unfolding(text_write::specs::Phrases::phrase, text_write::specs::Phrases::start, base_readers::specs::Readers::run, explain_rules::specs::Explained::answer_words))]
fn answer_place(w: &[u8]) -> usize
    ensures { phrase result answers ≡ answer_words w.now }
{
    if text_compare::exact::is_same(w, b"8") {
        return 0;
    }
    if text_compare::exact::is_same(w, b"9") {
        return 1;
    }
    2
}

// What an answer means for what is shown.
fn put_answer(w: &[u8], out: &mut [u8], to: usize) -> usize
    ensures { Clipped out.old to (answer_words w.now) out.new result }
{
    text_write::phrases::put_phrase(
        b"; of a newer version: what it says is not read|; not well-formed: none of its results is shown|",
        answer_place(w),
        out,
        to,
    )
}

// The place of an owner among the phrases of `put_whose`.
#[tactic(auto, unfolding(text_write::specs::Phrases::phrase, text_write::specs::Phrases::start, base_readers::specs::Readers::run, explain_rules::specs::Explained::whose_words))]
fn whose_place(w: &[u8]) -> usize
    ensures { phrase result whoses ≡ whose_words w.now }
{
    if text_compare::exact::is_same(w, b"own") {
        return 0;
    }
    if text_compare::exact::is_same(w, b"other") {
        return 1;
    }
    2
}

// Whose word it is.
fn put_whose(w: &[u8], out: &mut [u8], to: usize) -> usize
    ensures { Clipped out.old to (whose_words w.now) out.new result }
{
    text_write::phrases::put_phrase(
        b"in our own name: strip removes it; what it says is only claimed|another's word: strip keeps it|its identifier can't be read: strip removes it",
        whose_place(w),
        out,
        to,
    )
}

// The last two columns of the line of a field: answer and count.
fn put_answers(l: &[u8], out: &mut [u8], to: usize) -> usize
    ensures { Clipped out.old to (answer_on l.now) out.new result }
{
    let a = put_answer(explain_columns::column(l), out, to);
    let count = explain_columns::behind(l);
    put_count(explain_columns::column(count), out, a)
}

// The columns of the line of a field from its second on.
fn put_owner(l: &[u8], out: &mut [u8], to: usize) -> usize
    ensures { Clipped out.old to (whose_on l.now) out.new result }
{
    let a = put_whose(explain_columns::column(l), out, to);
    put_answers(explain_columns::behind(l), out, a)
}

// The line of a field, by its columns behind the first.
pub fn put_field(l: &[u8], out: &mut [u8], to: usize) -> usize
    ensures { Clipped out.old to (field_words l.now) out.new result }
{
    let a = explain_columns::put_labelled(b"Field ", l, out, to);
    let b = text_write::put_part(b": ", out, a);
    put_owner(explain_columns::behind(l), out, b)
}
