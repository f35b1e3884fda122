//! Laws of the definitions, carried by functions that do nothing.

ghost use Rattle.stream_graph.specs.Laws.{EveryPacketReachesTm, RouteNamesTables, TablesAreNamed};

/// Where a load is given no route, each row reaches the table `tm` and no other.
pub fn every_packet_reaches_tm()
    ensures { EveryPacketReachesTm }
{}

/// A row reaches tables that INSERTs name. Where these are below a number, no more tables than that are reached.
pub fn tables_are_named()
    ensures { TablesAreNamed }
{}

/// Where the tables of a script are below a number, those that its route's INSERTs name are.
pub fn route_names_tables()
    ensures { RouteNamesTables }
{}
