//! The lines of packets.

ghost use Rattle.std.specs.Prelude.{◌≡◌, ◌+◌, ◌≤◌, ◌++◌, length};
ghost use Rattle.retrieval.specs.ReplayText.{key_words, longest_key_words, longest_packet_words, packet_line, packet_words, pname_text};
ghost use Rattle.line_buffer.specs.LineRoom.{HasLineRoom, HasRoomFor};

use arch_types::key::Key;
use arch_types::name::{Name, Names};
use arch_types::row::Row;
use line_buffer::LineBuffer;

/// Adds the line of a row of a table.
pub(crate) fn put_packet(line_buffer: &mut LineBuffer, names: &Names, table: &Name, row: &Row)
    requires { HasLineRoom line_buffer.old }
    ensures { line_buffer.new ≡ line_buffer.old ++ packet_line names.now table.now row.now }
{
    put_key(line_buffer, table, row.key);
    put_packet_words(line_buffer, names, row);
}

/// Adds the table and the key.
fn put_key(line_buffer: &mut LineBuffer, table: &Name, key: Key)
    requires { HasLineRoom line_buffer.old }
    ensures text { line_buffer.new ≡ line_buffer.old ++ key_words table.now key }
    ensures short { length line_buffer.new ≤ length line_buffer.old + longest_key_words }
{
    line_buffer.put(b"packet ");
    line_buffer.put(octets_of(table));
    line_buffer.put_field(key.time);
    line_buffer.put_field(key.seq);
}

/// Adds the link, the packet's name, and how many octets it has.
fn put_packet_words(line_buffer: &mut LineBuffer, names: &Names, row: &Row)
    requires { HasRoomFor longest_packet_words line_buffer.old }
    ensures { line_buffer.new ≡ line_buffer.old ++ packet_words names.now row.now }
{
    line_buffer.put_field(row.link);
    line_buffer.put_octet(b' ');
    line_buffer.put(pname_text(names, row.pname));
    line_buffer.put_field(row.packet.len());
    line_buffer.put_octet(b'\n');
}

/// The octets of a name, few enough for a line.
fn octets_of(name: &Name) -> &[u8]
    ensures text { result.now ≡ name.now }
    ensures short { length result.now ≤ 64 }
{
    name.as_slice()
}

/// The packet name with a number, few enough octets for a line.
fn pname_text(names: &Names, number: u16) -> &[u8]
    ensures text { result.now ≡ pname_text names.now number }
    ensures short { length result.now ≤ 64 }
{
    match names.as_slice().get(number as usize) {
        None => b"",
        Some(name) => octets_of(name),
    }
}
