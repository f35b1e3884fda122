//! The files that calls find: sheets of two parameters in one container or in three, asks, scripts, and dumps.

use crate::calls::NamedFile;

/// Two packets at 1.5 s, the first of them twice.
const TWICE: &[u8] =
    b"\x08\x64\xC0\x00\x00\x06\x00\x00\x00\x01\x80\x00\x2A\x08\x65\xC0\x00\x00\x06\x00\x00\x00\x01\x80\x00\x07\x08\x64\xC0\x00\x00\x06\x00\x00\x00\x01\x80\x00\x2A";

/// Two packets at 1.5 s, of APID 100 and 101, the first one longer.
const NAMED: &[u8] =
    b"\x08\x64\xC0\x00\x00\x07\x00\x00\x00\x01\x80\x00\x2A\xFE\x08\x65\xC0\x00\x00\x06\x00\x00\x00\x01\x80\x00\x07";

/// A packet at 1.5 s whose key stands behind those.
const THIRD: &[u8] = b"\x08\x66\xC0\x00\x00\x06\x00\x00\x00\x01\x80\x00\x08";

/// A packet at 5,000 s, which is in the interval behind.
const LATER: &[u8] = b"\x08\x64\xC0\x00\x00\x06\x00\x00\x13\x88\x00\x00\x05";

/// A packet at 1.5 s and one at 9,000 s, two intervals behind, and an octet that begins none.
const LATE_BROKEN: &[u8] =
    b"\x08\x67\xC0\x00\x00\x06\x00\x00\x00\x01\x80\x00\x09\x08\x64\xC0\x00\x00\x06\x00\x00\x23\x28\x00\x00\x03\x28";

/// A packet, an idle one, and an octet that begins none.
const BROKEN: &[u8] =
    b"\x08\x64\xC0\x00\x00\x06\x00\x00\x00\x01\x80\x00\x2A\x07\xFF\xC0\x00\x00\x00\x00\x28";

/// An idle packet.
const IDLE: &[u8] = b"\x07\xFF\xC0\x00\x00\x00\x00";

const PARAMETERS: NamedFile<'static> = (
    "parameters",
    b"name,coding,bits,calibration\napid,uint,11,\nv,uint,8,\n",
);

const CALIBRATIONS: NamedFile<'static> = ("calibrations", b"name,kind,x,y\n");

const CONTAINERS: NamedFile<'static> = (
    "containers",
    b"container,parent,condition,archive,entry,position\nHDR,,,,apid,5\n,,,,v,96\n",
);

const FILES: &[NamedFile<'static>] = &[
    PARAMETERS,
    CALIBRATIONS,
    CONTAINERS,
    (
        "asks",
        b"kind,name,from,to,order,limit,names\nvalues,v,0,2000,desc,1,\n",
    ),
    (
        "unknown",
        b"kind,name,from,to,order,limit,names\nvalues,u,2000,0,desc,1,\n",
    ),
    (
        "backwards",
        b"kind,name,from,to,order,limit,names\nvalues,v,2000,0,,,\n",
    ),
    ("bad", b"kind,name\n"),
    (
        "replayed",
        b"kind,name,from,to,order,limit,names\nreplay,tm,0,2000,,,\n",
    ),
    (
        "three",
        b"container,parent,condition,archive,entry,position\nHDR,,,,apid,5\nA,HDR,apid==100,yes,v,96\nB,HDR,apid==101,yes,v,96\n",
    ),
    ("copy", b"CREATE TABLE copy LIKE tm;"),
    ("nothing", b"-- no statement\n"),
    (
        "fifteen",
        b"create table a like tm; create table b like tm; create table c like tm; create table d like tm; create table e like tm; create table f like tm; create table g like tm; create table h like tm; create table i like tm; create table j like tm; create table k like tm; create table l like tm; create table m like tm; create table n like tm; create table o like tm",
    ),
    (
        "sixteen",
        b"create table a like tm; create table b like tm; create table c like tm; create table d like tm; create table e like tm; create table f like tm; create table g like tm; create table h like tm; create table i like tm; create table j like tm; create table k like tm; create table l like tm; create table m like tm; create table n like tm; create table o like tm; create table p like tm",
    ),
    ("taken", b"CREATE TABLE tm LIKE tm;"),
    ("again", b"CREATE TABLE a LIKE tm; CREATE TABLE a LIKE tm;"),
    ("unlike", b"CREATE TABLE a LIKE a;"),
    ("all", b"INSERT INTO tm SELECT * FROM tm_in;"),
    ("cut", b"CREATE TABLE a LIKE"),
    ("script", b"SELECT seqNum FROM tm;"),
    (
        "routes",
        b"INSERT INTO tm SELECT * FROM tm_in; INSERT INTO copy SELECT * FROM tm_in WHERE apid = 100;",
    ),
    (
        "named_a",
        b"CREATE STREAM s AS SELECT * FROM tm_in WHERE pname = 'A'; INSERT INTO tm SELECT * FROM s; INSERT INTO tm SELECT * FROM tm_in WHERE apid = 100;",
    ),
    ("other", b"INSERT INTO other SELECT * FROM tm_in"),
    (
        "merged",
        b"SELECT gentime, seqNum, pname FROM MERGE(tm, copy) LIMIT 3;",
    ),
    (
        "no_row",
        b"SELECT gentime, seqNum, pname FROM MERGE(tm, copy) WHERE gentime < '1970-01-01T00:00:01.500' LIMIT 3;",
    ),
    ("none_of_copy", b"SELECT * FROM copy LIMIT 0"),
    (
        "both",
        b"kind,name,from,to,order,limit,names\nvalues,v,0,2000,desc,1,\nreplay,tm,0,2000,,,B\n",
    ),
    (
        "of_copy",
        b"kind,name,from,to,order,limit,names\nreplay,copy,0,2000,,,\n",
    ),
    ("named", NAMED),
    ("twice", TWICE),
    ("third", THIRD),
    ("later", LATER),
    ("late_broken", LATE_BROKEN),
    ("broken", BROKEN),
    ("idle", IDLE),
];

/// All of them. A function, as each table of these tests is, so that they stand in no goal of its callers.
pub(crate) fn files() -> &'static [NamedFile<'static>] {
    FILES
}

/// The sheets of the one container.
pub(crate) fn sheets() -> [NamedFile<'static>; 3] {
    [PARAMETERS, CALIBRATIONS, CONTAINERS]
}
