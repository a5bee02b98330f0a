// COMMENT lines and the lines of aux blocks, which leave what was got of the header as it is: they are passed before that is looked at.
ghost use Rattle.std.specs.Prelude.{◌≤◌, length};
ghost use Rattle.layout.specs.Text.{pad};
ghost use Rattle.head.specs.Past.{Leaves, Comes};

use read_lines::NextRow;

const COMMENT: [u8; 20] = *b"COMMENT             ";

const AUX_END: [u8; 20] = *b"END OF AUX DATA     ";

// Whether a row is passed, inside an aux block or outside.
fn is_remark(aux: bool, line: &[u8]) -> bool
    requires { length line.now ≤ 80 }
    ensures { Leaves result aux (pad line.now) }
{
    if aux {
        let end = AUX_END;
        return !labels::has_label(line, &end);
    }
    let comment = COMMENT;
    labels::has_label(line, &comment)
}

// The next row that is no remark, from a line's start on, where so many lines are passed.
pub fn next_record(aux: bool, text: &[u8], from: usize, passed: u64) -> NextRow
    requires { (from ≤ length text.now) × (passed ≤ from) }
    ensures { Comes text.now aux from passed result }
{
    let mut at = from;
    let mut n = passed;
    loop {
        let r = read_lines::row_from(text, at, n);
        let NextRow::Row(start, end, next, m) = r else {
            return r;
        };
        if !is_remark(aux, &text[start..end]) {
            return r;
        }
        at = next;
        n = m + 1;
    }
}
