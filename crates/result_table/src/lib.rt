// The table of methods with the results of each (01, Results; of the four that RFC 8601 defines: dkim 2.7.1, spf 2.7.2, iprev 2.7.3, auth
// 2.7.4; dmarc is RFC 7489's and arc RFC 8617's), and the four ptypes (RFC 8601, 2.3).
//
// A text that is asked for is bytes of the input as they stand there, of any length. It is compared with the names of a table without case.
#![tactic(auto)]

ghost use Rattle.std.specs.Prelude.{◌≡◌, true, map};
ghost use Rattle.lexis_rules.specs.Bytes.{lower};
ghost use Rattle.result_rules.specs.Table.{listed, tabled, table, ptypes};
ghost use Rattle.result_table.specs.Internal.{fits, names, number_of};

use text_compare::same_word;

// The methods. Each name stands at the front of its row.
// Rows of one length with the lengths beside them: one table of `&str` names, asked by `any`, was tried and takes twice the time.
const METHODS: [[u8; 9]; 6] = [
    [b'a', b'u', b't', b'h', 0, 0, 0, 0, 0],
    [b'd', b'k', b'i', b'm', 0, 0, 0, 0, 0],
    [b's', b'p', b'f', 0, 0, 0, 0, 0, 0],
    [b'i', b'p', b'r', b'e', b'v', 0, 0, 0, 0],
    [b'd', b'm', b'a', b'r', b'c', 0, 0, 0, 0],
    [b'a', b'r', b'c', 0, 0, 0, 0, 0, 0],
];

// How many bytes of its row each name has.
const METHOD_LENGTHS: [usize; 6] = [4, 4, 3, 5, 5, 3];

// The results of all methods.
const RESULTS: [[u8; 9]; 8] = [
    [b'n', b'o', b'n', b'e', 0, 0, 0, 0, 0],
    [b'p', b'a', b's', b's', 0, 0, 0, 0, 0],
    [b'f', b'a', b'i', b'l', 0, 0, 0, 0, 0],
    [b's', b'o', b'f', b't', b'f', b'a', b'i', b'l', 0],
    [b'p', b'o', b'l', b'i', b'c', b'y', 0, 0, 0],
    [b'n', b'e', b'u', b't', b'r', b'a', b'l', 0, 0],
    [b't', b'e', b'm', b'p', b'e', b'r', b'r', b'o', b'r'],
    [b'p', b'e', b'r', b'm', b'e', b'r', b'r', b'o', b'r'],
];

const RESULT_LENGTHS: [usize; 8] = [4, 4, 4, 8, 6, 7, 9, 9];

// Which results each method has: a row for each of the methods, a column for each of the results.
const ALLOWED: [[bool; 8]; 6] = [
    [true, true, true, false, false, false, true, true],
    [true, true, true, false, true, true, true, true],
    [true, true, true, true, true, true, true, true],
    [false, true, true, false, false, false, true, true],
    [true, true, true, false, false, false, true, true],
    [true, true, true, false, false, false, false, false],
];

// The ptypes.
const PTYPES: [[u8; 9]; 4] = [
    [b's', b'm', b't', b'p', 0, 0, 0, 0, 0],
    [b'h', b'e', b'a', b'd', b'e', b'r', 0, 0, 0],
    [b'b', b'o', b'd', b'y', 0, 0, 0, 0, 0],
    [b'p', b'o', b'l', b'i', b'c', b'y', 0, 0, 0],
];

const PTYPE_LENGTHS: [usize; 4] = [4, 6, 4, 6];

// The number of a text among the names of a table, from 0; how many names there are if it is none of them.
fn number_of(rows: &[[u8; 9]], lengths: &[usize], text: &[u8]) -> usize
    requires { fits lengths.now rows.now ≡ true }
    ensures { result ≡ number_of (names lengths.now rows.now) (map lower text.now) }
{
    for i in 0..rows.len() {
        if lengths[i] != text.len() {
            continue;
        }
        let row = rows[i];
        if same_word(&row[..lengths[i]], text) {
            return i;
        }
    }
    rows.len()
}

// Whether a result stands in the row of its own method.
pub fn is_tabled(method: &[u8], res: &[u8]) -> bool
    ensures { result ≡ tabled table (map lower method.now) (map lower res.now) }
{
    let m = number_of(&METHODS, &METHOD_LENGTHS, method);
    if m >= METHODS.len() {
        return false;
    }
    let r = number_of(&RESULTS, &RESULT_LENGTHS, res);
    if r >= RESULTS.len() {
        return false;
    }
    ALLOWED[m][r]
}

// Whether a text is smtp, header, body or policy.
pub fn is_ptype(t: &[u8]) -> bool
    ensures { result ≡ listed ptypes (map lower t.now) }
{
    number_of(&PTYPES, &PTYPE_LENGTHS, t) < PTYPES.len()
}
