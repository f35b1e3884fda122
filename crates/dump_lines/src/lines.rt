//! The lines of a dump's rows.

ghost use Rattle.std.specs.Prelude.{◌≡◌, ◌++◌, codes, decimal};
ghost use Rattle.line_buffer.specs.LineRoom.{HasLineRoom, HasRoomFor};
ghost use Rattle.dump_lines.specs.Text.{counts_line, half_line, key_line};

use crate::counts::Counts;
use arch_types::key::Key;
use line_buffer::LineBuffer;

/// Adds the line of a row of this key, whose packet has so many octets.
pub fn put_row(line_buffer: &mut LineBuffer, key: Key, length: u32)
    requires { HasLineRoom line_buffer.old }
    ensures { line_buffer.new ≡ line_buffer.old ++ key_line key length }
{
    line_buffer.put_number(b"row ", key.time);
    line_buffer.put_field(key.seq);
    line_buffer.put_field(length);
    line_buffer.put_octet(b'\n');
}

/// Adds the last line.
pub fn put_counts(line_buffer: &mut LineBuffer, counts: Counts)
    requires { HasLineRoom line_buffer.old }
    ensures { line_buffer.new ≡ line_buffer.old
        ++ counts_line counts.packets counts.rows counts.duplicates counts.idle }
{
    put_kept(line_buffer, counts.packets, counts.rows);
    put_left_out(line_buffer, counts.duplicates, counts.idle);
}

/// Adds the first half of the last line.
fn put_kept(line_buffer: &mut LineBuffer, packets: u64, rows: u64)
    requires { HasLineRoom line_buffer.old }
    ensures text { line_buffer.new ≡ line_buffer.old ++ codes "scan packets " ++ decimal packets ++ codes " rows "
        ++ decimal rows }
    ensures half { HasRoomFor half_line line_buffer.new }
{
    line_buffer.put_number(b"scan packets ", packets);
    line_buffer.put_number(b" rows ", rows);
}

/// Adds the second half of the last line.
fn put_left_out(line_buffer: &mut LineBuffer, duplicates: u64, idle: u64)
    requires { HasRoomFor half_line line_buffer.old }
    ensures { line_buffer.new ≡ line_buffer.old ++ codes " duplicates " ++ decimal duplicates ++ codes " idle "
        ++ decimal idle ++ codes "\n" }
{
    line_buffer.put_number(b" duplicates ", duplicates);
    line_buffer.put_number(b" idle ", idle);
    line_buffer.put(b"\n");
}
