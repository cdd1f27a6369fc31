// Keyword columns, and whether a method and its result are known (02, ticket [1]: keywords as the report writes them, in lower case).
//
//   column_end(s, at, close)     the end of the keyword at a place that this byte closes, if there is one
//   is_lower(part)               whether a text has no capitals
//   is_keyword(p)                whether a text is a keyword in lower case
//   is_known(method, result)     whether the two, as they stand, are in one row of the table
ghost use Rattle.std.specs.Prelude.{◌≡◌, map};
ghost use Rattle.base_readers.specs.Texts.{same};
ghost use Rattle.lexis_rules.specs.Bytes.{lower};
ghost use Rattle.result_rules.specs.Table.{table, tabled};
ghost use Rattle.write_rules.specs.Entries.{is_keyword};
ghost use Rattle.write_columns.specs.Internal.{ColumnAt};

// The end of the keyword at a place that a byte closes, if there is one.
pub fn column_end(s: &[u8], at: usize, close: u8) -> Option<usize>
    ensures { ColumnAt close s.now at result }
{
    let e = lexis_tokens::keyword_end(s, at);
    if e > at {
        if base_readers::is_at(s, e, 0, close) {
            return Some(e);
        }
    }
    None
}

// Whether a text has no capitals.
pub fn is_lower(part: &[u8]) -> bool
    ensures { result ≡ same (map lower part.now) part.now }
{
    part.iter().all(|b| text_compare::lower(*b) == *b)
}

// Whether a method and its result, as they stand, are in one row of the table.
pub fn is_known(method: &[u8], res: &[u8]) -> bool
    ensures { result ≡ tabled table method.now res.now }
{
    if is_lower(method) {
        if is_lower(res) {
            return result_table::is_tabled(method, res);
        }
    }
    false
}

// Whether a text is a keyword in lower case, all of it.
pub fn is_keyword(p: &[u8]) -> bool
    ensures { result ≡ is_keyword p.now }
{
    if p.len() == 0 {
        return false;
    }
    if lexis_tokens::keyword_end(p, 0) == p.len() {
        return is_lower(p);
    }
    false
}
