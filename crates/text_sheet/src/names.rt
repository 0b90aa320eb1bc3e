// The names of a table's lines, a newline behind each.
ghost use Rattle.std.specs.Prelude.{◌≡◌, ◌+◌, ◌≤◌, length};
ghost use Rattle.words.specs.Buffer.{Put};
ghost use Rattle.text_sheet.specs.Sheet.{names_bytes, room_of};

use named_lines::Table;
use sheet_bytes::put_text;
use words::put_byte;

// How many of `room` bytes the names leave, if they fit into them.
pub fn room_behind(names: &Table<'_>, room: usize) -> Option<usize>
    ensures { result ≡ room_of names.now.lines room }
{
    let mut left = room;
    for i in 0..names.len() {
        left = left.checked_sub(names.name(i).len() + 1)?;
    }
    Some(left)
}

// The names, one behind the other.
pub fn put_names(names: &Table<'_>, out: &mut [u8], at: usize) -> usize
    requires { at + length (names_bytes names.now.lines) ≤ length out.old }
    ensures { Put out.old at (names_bytes names.now.lines) out.new result }
{
    let mut end = at;
    for i in 0..names.len() {
        end = put_text(names.name(i), out, end);
        end = put_byte(b'\n', out, end);
    }
    end
}
