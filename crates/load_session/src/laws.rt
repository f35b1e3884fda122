//! Laws of the definitions, carried by functions that do nothing.

ghost use Rattle.load_session.specs.Laws.{EveryPacketGoesIntoTm, EveryPacketIsOneRow, NamesOfHeadAreNumbers};

/// Where a load is given no route, the rows of its packets stand in the table `tm`.
pub fn every_packet_goes_into_tm()
    ensures { EveryPacketGoesIntoTm }
{}

/// They are as many as there are packets that aren't idle.
pub fn every_packet_is_one_row()
    ensures { EveryPacketIsOneRow }
{}

/// Behind rows alone, a packet name is the number of its container in the head's database.
pub fn names_of_head_are_numbers()
    ensures { NamesOfHeadAreNumbers }
{}
