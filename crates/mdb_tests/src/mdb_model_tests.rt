//! What no clause says: worked sheets and their octets, and that each call succeeds with ample memory.

ghost use Rattle.std.specs.Prelude.{◌<◌};

use crate::given::{Sheets, database, none_other, octets_of};
use mdb_model::{Mdb, MdbFault, MdbLimit, MdbSheet, NotMdb};
use std::alloc::{AllocError, Global};
use std::test::*;
use std::thread::{Threads, join};

// Strokes part the records of a sheet, and commas their fields. Each text has a function, so that it stands in no goal of its callers.
const PARAMETERS: &str = "name,coding,bits,calibration|apid,uint,11,|v,uint,8,|w,int,8,";

fn parameters_text() -> &'static str {
    PARAMETERS
}

const CALIBRATIONS: &str = "name,kind,x,y";

fn calibrations_text() -> &'static str {
    CALIBRATIONS
}

const CONTAINERS: &str =
    "container,parent,condition,archive,entry,position|HDR,,,,apid,5|A,HDR,apid==100,yes,v,96|,,,,w,|B,HDR,apid==101,yes,v,96";

fn containers_text() -> &'static str {
    CONTAINERS
}

// Their database, spelled by hand.
const OCTETS: &str =
    "00030461706964000b00000176000800000177010800000000000303484452000000000001000000000005014100010101000000000000000000000000000000000000640002000100000060000200000068014200010101000000000000000000000000000000000000650001000100000060";

fn octets_text() -> &'static str {
    OCTETS
}

// As those, with two calibrations beside each other that have one name: their rows would be those of one calibration.
const NEIGHBOURS: &str =
    "00030461706964000b00000176000800000177010800000002016b0000000001000000000000000000016b0000000001010000000000000000000303484452000000000001000000000005014100010101000000000000000000000000000000000000640002000100000060000200000068014200010101000000000000000000000000000000000000650001000100000060";

fn neighbours_text() -> &'static str {
    NEIGHBOURS
}

// Sheets with each coding, kind of calibration, operator and form of a position.
const EACH_PARAMETER: &str =
    "name,coding,bits,calibration|a,uint,8,|b,intLE,16,k|c,int,8,p|d,uintLE,8,e";

fn each_parameter_text() -> &'static str {
    EACH_PARAMETER
}

const EACH_CALIBRATION: &str =
    "name,kind,x,y|k,poly,0,-10|k,poly,1,0.01|p,points,-2,0|p,points,03,-1.0|e,enum,-0,OFF|e,enum,18446744073709551615,ON ~";

fn each_calibration_text() -> &'static str {
    EACH_CALIBRATION
}

// Those with another coefficient.
const OTHER_CALIBRATION: &str =
    "name,kind,x,y|k,poly,0,-10|k,poly,1,0.02|p,points,-2,0|p,points,03,-1.0|e,enum,-0,OFF|e,enum,18446744073709551615,ON ~";

fn other_calibration_text() -> &'static str {
    OTHER_CALIBRATION
}

const EACH_CONTAINER: &str =
    "container,parent,condition,archive,entry,position|R,,,,a,5|,,,,b,+5|S.1/x-y,R, a==1; a != 2;a<3;a<=4 ;a>5;b >= -6 ,yes,,|T,S.1/x-y,,no,c,|,,,,d,000100";

fn each_container_text() -> &'static str {
    EACH_CONTAINER
}

const EACH_OCTETS: &str =
    "00040161000800000162031000010163010800020164020800030003016b000000000200ffffffffff67698001000000000000271001700100000002fffffffffffffffffffffffffffffffe000000000000000000000000000000000000000000000003fffffffffff0bdc00165020000000200000000000000000000000000000000034f46460000000000000000ffffffffffffffff044f4e207e0003015200000000000200000000000500010000001207532e312f782d79000101060000000000000000000000000000000000000100000100000000000000000000000000000002000002000000000000000000000000000000030000030000000000000000000000000000000400000400000000000000000000000000000005000105fffffffffffffffffffffffffffffffa00000154000200000002000200000022000300000064";

fn each_octets_text() -> &'static str {
    EACH_OCTETS
}

// A path is the row that breaks a rule first, the rule, and the sheet. The other two sheets are sound.
const BROKEN_CALIBRATIONS: &str = "1#1#name,kind,x
1#1#name,kind,x,z|k,poly
2#2#name,kind,x,y|k,poly,0
2#3#name,kind,x,y|k k,poly,0,1
2#4#name,kind,x,y|k,line,0,1
4#5#name,kind,x,y|k,poly,0,1|j,poly,0,1|k,poly,1,1
3#6#name,kind,x,y|k,poly,0,1|k,points,0,1
2#7#name,kind,x,y|k,poly,4,1
2#7#name,kind,x,y|k,enum,18446744073709551616,A
3#8#name,kind,x,y|k,poly,0,1|k,poly,0,2
3#8#name,kind,x,y|k,points,2,1|k,points,02,2
4#8#name,kind,x,y|k,enum,2,A|k,enum,1,B|k,enum,2,C
2#9#name,kind,x,y|k,poly,0,1.1234567
2#9#name,kind,x,y|k,enum,0,
2#10#name,kind,x,y|k,points,0,1
2#2#name,kind,x,y|k k,line,z
2#3#name,kind,x,y|k k,line,z,z
4#5#name,kind,x,y|k,poly,0,1|j,poly,0,1|k,line,z,z
2#4#name,kind,x,y|k,line,z,z
2#7#name,kind,x,y|k,poly,z,z
3#6#name,kind,x,y|k,poly,0,1|k,points,z,z
3#8#name,kind,x,y|k,poly,0,1|k,poly,0,z
2#9#name,kind,x,y|k,points,0,z
3#2#name,kind,x,y|k,points,0,1|k,line";

fn broken_calibrations_text() -> &'static str {
    BROKEN_CALIBRATIONS
}

const BROKEN_PARAMETERS: &str = "1#1#name,coding,bits
2#2#name,coding,bits,calibration|apid,uint,11
2#3#name,coding,bits,calibration|a b,uint,11,
3#5#name,coding,bits,calibration|apid,uint,11,|apid,uint,11,
2#11#name,coding,bits,calibration|apid,float,11,
2#12#name,coding,bits,calibration|apid,uint,65,
2#12#name,coding,bits,calibration|apid,uintLE,12,
2#13#name,coding,bits,calibration|apid,uint,11,z
2#14#name,coding,bits,calibration|big,uint,61,k
2#14#name,coding,bits,calibration|big,uint,61,j
2#3#name,coding,bits,calibration|a b,float,65,z
3#5#name,coding,bits,calibration|a,uint,8,|a,float,65,z
2#11#name,coding,bits,calibration|apid,float,65,z
2#12#name,coding,bits,calibration|apid,uint,0,z";

fn broken_parameters_text() -> &'static str {
    BROKEN_PARAMETERS
}
// Their header is left out.
const BROKEN_CONTAINERS: &str = "2#2#|HDR,,,,apid
2#3#|H D,,,,apid,5
3#5#|HDR,,,,apid,5|HDR,HDR,,,v,96
2#15#|,,,,apid,5
2#16#|HDR,Z,,,apid,5
3#16#|HDR,,,,apid,5|A,A,,,v,96
6#16#|HDR,,,,apid,5|A,HDR,apid==100,yes,v,96|,,,,w,|B,HDR,apid==101,yes,v,96|C,Z,,,w,96
3#17#|HDR,,,,apid,5|A,,,,v,96
3#18#|HDR,,,,apid,5|,HDR,,,v,96
3#18#|HDR,,,,apid,5|,,apid==1,,v,96
3#18#|HDR,,,,apid,5|,,,no,v,96
1#19#
3#20#|HDR,,,,apid,5|A,HDR,apid=100,,v,96
3#20#|HDR,,,,apid,5|A,HDR,apid\t==100,,v,96
3#20#|HDR,,,,apid,5|A,HDR,apid==100;,,v,96
3#20#|HDR,,,,apid,5|A,HDR,zz==100,,v,96
3#21#|HDR,,,,apid,5|A,HDR,v==100,,v,96
2#21#|HDR,,apid==1,,apid,5
2#23#|HDR,,,maybe,apid,5
2#24#|HDR,,,,zz,5
3#25#|HDR,,,,apid,5|A,HDR,,,apid,96
3#26#|HDR,,,,apid,5|,,,,,
2#27#|HDR,,,,apid,1234567
2#27#|HDR,,,,apid,+
2#27#|HDR,,,,,5
2#28#|HDR,,,,apid,524326
2#28#|HDR,,,,apid,+99999999999999999999999
2#15#|,Z,x,maybe,zz,x
2#3#|H D,Z,x,maybe,zz,x
3#5#|HDR,,,,apid,5|HDR,Z,x,maybe,zz,x
3#16#|HDR,,,,apid,5|A,Z,x,maybe,zz,x
3#17#|HDR,,,,apid,5|A,,x,maybe,zz,x
3#18#|HDR,,,,apid,5|,Z,x,maybe,zz,x
3#20#|HDR,,,,apid,5|A,HDR,x,maybe,zz,x
3#21#|HDR,,,,apid,5|A,HDR,v==1,maybe,zz,x
2#23#|HDR,,,maybe,zz,x
2#24#|HDR,,,,zz,x
3#25#|HDR,,,,apid,5|A,HDR,,,apid,x
3#26#|HDR,,,,apid,5|,,,,,x";

fn broken_containers_text() -> &'static str {
    BROKEN_CONTAINERS
}

const LABELLED: &str = "name,coding,bits,calibration|a,int,8,e|b,int,8,";

fn labelled_text() -> &'static str {
    LABELLED
}

const LABELS: &str = "name,kind,x,y|e,enum,7,SEVEN|e,enum,-1,BELOW|e,enum,3,THREE";

fn labels_text() -> &'static str {
    LABELS
}

const LABELLED_ROOT: &str = "container,parent,condition,archive,entry,position|r,,,,a,";

fn labelled_root_text() -> &'static str {
    LABELLED_ROOT
}

const CALIBRATION: &str = "name,kind,x,y|k,poly,1,0.000007|j,poly,1,0.000001";

fn calibration_text() -> &'static str {
    CALIBRATION
}

/// What is answered where the containers are this text below their header.
fn with_containers(alloc: Global, parameters: &str, text: &str) -> Result<Mdb, MdbFault> {
    let header = "container,parent,condition,archive,entry,position";
    let whole = format!(in alloc; "{header}{text}")?;
    database(alloc, (parameters, calibration_text(), whole.as_str()))
}

/// What is answered where one sheet is this text, a containers sheet below its header.
fn with_sheet(alloc: Global, sheet: MdbSheet, text: &str) -> Result<Mdb, MdbFault> {
    match sheet {
        MdbSheet::Calibrations => database(alloc, (parameters_text(), text, containers_text())),
        MdbSheet::Parameters => database(alloc, (text, calibration_text(), containers_text())),
        MdbSheet::Containers => with_containers(alloc, parameters_text(), text),
    }
}

/// Whether sheets have this fault, or none.
fn has(checked: Result<Mdb, MdbFault>, fault: Option<MdbFault>) -> bool {
    checked.err() == fault
}

/// A number below 256.
fn number(text: Option<&str>) -> u8 {
    text.unwrap_or("").parse().unwrap_or(0)
}

/// The row and the rule that a path says, and its sheet.
fn parts_of(line: &str) -> (usize, u8, &str) {
    let mut parts = line.split('#');
    let row = usize::from(number(parts.next()));
    let rule = number(parts.next());
    (row, rule, parts.next().unwrap_or(""))
}

/// Whether the row, the rule and the sheet of a path are answered.
fn is_broken_so(alloc: Global, sheet: MdbSheet, line: &str) -> bool {
    let (row, rule, text) = parts_of(line);
    let bad = MdbFault::Bad { sheet, row, rule };
    has(with_sheet(alloc, sheet, text), Some(bad))
}

/// The first path after which another row, rule or sheet is answered.
fn other_broken(alloc: Global, sheet: MdbSheet, lines: &'static str) -> Option<&'static str> {
    for line in lines.split('\n') {
        if !is_broken_so(alloc, sheet, line) {
            return Some(line);
        }
    }
    None
}

#[test]
fn broken_calibrations(rt: HostRuntime) -> Result<(), Fail> {
    none_other(other_broken(
        rt.alloc(),
        MdbSheet::Calibrations,
        broken_calibrations_text(),
    ))
}

#[test]
fn broken_parameters(rt: HostRuntime) -> Result<(), Fail> {
    none_other(other_broken(rt.alloc(), MdbSheet::Parameters, broken_parameters_text()))
}

#[test]
fn broken_containers(rt: HostRuntime) -> Result<(), Fail> {
    none_other(other_broken(rt.alloc(), MdbSheet::Containers, broken_containers_text()))
}

fn is_bad_header(alloc: Global, header: &str) -> bool {
    let bad = MdbFault::Bad {
        sheet: MdbSheet::Containers,
        row: 1,
        rule: 1,
    };
    let checked = database(alloc, (parameters_text(), calibrations_text(), header));
    has(checked, Some(bad))
}

#[test]
fn broken_header(rt: HostRuntime) {
    assert!(rt; is_bad_header(rt.alloc(), "container"));
}

/// A text, and so many records after it, each its number between these texts.
fn listed(
    alloc: Global,
    first: &str,
    count: usize,
    before: &str,
    after: &str,
) -> Result<String, AllocError> {
    let mut text = String::new(alloc);
    text.push_str(first)?;
    for number in 0..count {
        let record = format!(in alloc; "|{before}{number}{after}")?;
        text.push_str(record.as_str())?;
    }
    Ok(text)
}

const PARAMETERS_HEADER: &str = "name,coding,bits,calibration";

fn parameters_header_text() -> &'static str {
    PARAMETERS_HEADER
}

const ROOT: &str = "container,parent,condition,archive,entry,position|root,,,,,";

fn root_text() -> &'static str {
    ROOT
}

/// What is answered for so many calibrations and parameters, and so many containers below the root.
fn counted(
    alloc: Global,
    calibrations: usize,
    parameters: usize,
    containers: usize,
) -> Result<Mdb, MdbFault> {
    let calibrations = listed(alloc, calibrations_text(), calibrations, "n", ",enum,0,A")?;
    let parameters = listed(alloc, parameters_header_text(), parameters, "n", ",uint,8,")?;
    let containers = listed(alloc, root_text(), containers, "n", ",root,,,,")?;
    database(
        alloc,
        (
            parameters.as_str(),
            calibrations.as_str(),
            containers.as_str(),
        ),
    )
}

fn passes(alloc: Global, calibrations: usize, parameters: usize, which: MdbLimit) -> bool {
    let limit = MdbFault::Limit {
        which,
        number: 4096,
    };
    has(counted(alloc, calibrations, parameters, 4096), Some(limit))
}

#[test]
fn limits_in_their_order(rt: HostRuntime) {
    assert!(rt; passes(rt.alloc(), 4097, 4097, MdbLimit::Calibrations));
    assert!(rt; passes(rt.alloc(), 4096, 4097, MdbLimit::Parameters));
    assert!(rt; passes(rt.alloc(), 4096, 4096, MdbLimit::Containers));
}

/// What is answered for a calibration of so many rows.
fn with_rows(alloc: Global, rows: usize) -> Result<Mdb, MdbFault> {
    let text = listed(alloc, calibrations_text(), rows, "k,enum,", ",A")?;
    with_sheet(alloc, MdbSheet::Calibrations, text.as_str())
}

fn are_most_rows(alloc: Global, rows: usize) -> bool {
    let limit = MdbFault::Limit {
        which: MdbLimit::CalibrationRows,
        number: 65_536,
    };
    has(with_rows(alloc, rows), None) && has(with_rows(alloc, rows.saturating_add(1)), Some(limit))
}

#[test]
fn most_calibration_rows(rt: HostRuntime) {
    assert!(rt; are_most_rows(rt.alloc(), 65_536));
}

/// What is answered where these are the containers, over 257 parameters.
fn many(alloc: Global, containers: &str) -> Result<Mdb, MdbFault> {
    let parameters = listed(alloc, parameters_header_text(), 257, "n", ",uint,8,")?;
    with_containers(alloc, parameters.as_str(), containers)
}

/// What is answered for a root, 256 containers of 256 entries each below it, and what follows.
fn full(alloc: Global, rest: &str) -> Result<Mdb, MdbFault> {
    let entries = listed(alloc, ",root,,,,", 256, ",,,,n", ",")?;
    let mut text = listed(alloc, "|root,,,,,", 256, "c", entries.as_str())?;
    text.push_str(rest)?;
    many(alloc, text.as_str())
}

fn are_most_entries(alloc: Global, one_more: &str) -> bool {
    let limit = MdbFault::Limit {
        which: MdbLimit::Entries,
        number: 65_536,
    };
    has(full(alloc, ""), None) && has(full(alloc, one_more), Some(limit))
}

#[test]
fn most_entries(rt: HostRuntime) {
    assert!(rt; are_most_entries(rt.alloc(), "|one,root,,,n0,"));
}

/// The fault of a row of the containers.
fn bad_container(row: usize, rule: u8) -> MdbFault {
    MdbFault::Bad {
        sheet: MdbSheet::Containers,
        row,
        rule,
    }
}

/// What is answered for a root with two entries, over parameters that are numbered from 0 to 65,536.
fn with_far(alloc: Global, entry: &str, other: &str) -> Result<Mdb, MdbFault> {
    let parameters = listed(alloc, parameters_header_text(), 65_537, "n", ",uint,8,")?;
    let containers = format!(in alloc; "|root,,,,{entry},|,,,,{other},")?;
    with_containers(alloc, parameters.as_str(), containers.as_str())
}

// Numbers that 16 bits don't tell apart; the rules come before the limits.
#[test]
fn far_numbers_differ(rt: HostRuntime) {
    let limit = MdbFault::Limit {
        which: MdbLimit::Parameters,
        number: 4096,
    };
    assert!(rt; has(with_far(rt.alloc(), "n0", "n65536"), Some(limit)));
}

#[test]
fn far_number_repeats(rt: HostRuntime) {
    assert!(rt;
        has(
            with_far(rt.alloc(), "n65536", "n65536"),
            Some(bad_container(3, 25))
        )
    );
}

/// What is answered for a root of 256 entries, and what follows.
fn full_root(alloc: Global, rest: &str) -> Result<Mdb, MdbFault> {
    let mut text = listed(alloc, "|root,,,,,", 256, ",,,,n", ",")?;
    text.push_str(rest)?;
    many(alloc, text.as_str())
}

fn are_most_entries_of_a_path(alloc: Global, one_more: &str) -> bool {
    has(full_root(alloc, ""), None) && has(full_root(alloc, one_more), Some(bad_container(259, 29)))
}

#[test]
fn most_entries_of_a_path(rt: HostRuntime) {
    assert!(rt; are_most_entries_of_a_path(rt.alloc(), "|one,root,,,n256,"));
}

/// A root, and a container below it with so many comparisons.
fn comparing_text(alloc: Global, count: usize) -> Result<String, AllocError> {
    let mut text = String::new(alloc);
    text.push_str("|HDR,,,,apid,5|A,HDR,apid!=0")?;
    for number in 1..count {
        let comparison = format!(in alloc; ";apid!={number}")?;
        text.push_str(comparison.as_str())?;
    }
    text.push_str(",,v,96")?;
    Ok(text)
}

fn comparing(alloc: Global, count: usize) -> Result<Mdb, MdbFault> {
    let text = comparing_text(alloc, count)?;
    with_containers(alloc, parameters_text(), text.as_str())
}

fn are_most_comparisons(alloc: Global, count: usize) -> bool {
    has(comparing(alloc, count), None)
        && has(
            comparing(alloc, count.saturating_add(1)),
            Some(bad_container(3, 20)),
        )
}

#[test]
fn most_comparisons(rt: HostRuntime) {
    assert!(rt; are_most_comparisons(rt.alloc(), 255));
}

/// Each container of a path stands below the one before it.
fn path_text(alloc: Global, count: usize) -> Result<String, AllocError> {
    let mut text = String::new(alloc);
    text.push_str("|n0,,,,,")?;
    for number in 1..count {
        let above = number - 1;
        let record = format!(in alloc; "|n{number},n{above},,,,")?;
        text.push_str(record.as_str())?;
    }
    Ok(text)
}

fn path(alloc: Global, count: usize) -> Result<Mdb, MdbFault> {
    let text = path_text(alloc, count)?;
    with_containers(alloc, parameters_text(), text.as_str())
}

fn is_longest_path(alloc: Global, count: usize) -> bool {
    has(path(alloc, count), None)
        && has(
            path(alloc, count.saturating_add(1)),
            Some(bad_container(34, 29)),
        )
}

#[test]
fn longest_path(rt: HostRuntime) {
    assert!(rt; is_longest_path(rt.alloc(), 32));
}

/// The calibration of the parameter with a number, and the parent of the container with that number.
fn links(mdb: &Mdb, number: u16) -> (Option<usize>, Option<usize>) {
    let calibration = if number < mdb.parameters() {
        mdb.parameter(number).calibration
    } else {
        None
    };
    let parent = if number < mdb.containers() {
        mdb.container(number).parent
    } else {
        None
    };
    (calibration, parent)
}

fn calibration_name(mdb: &Mdb, number: u16) -> &[u8] {
    if number < mdb.calibrations() {
        mdb.calibration(number).name.as_bytes()
    } else {
        b"".as_slice()
    }
}

fn children(mdb: &Mdb, number: u16) -> &[u16] {
    if number < mdb.containers() {
        mdb.children(number)
    } else {
        &[]
    }
}

fn has_numbers(mdb: &Mdb) -> bool {
    mdb.parameter_number("c") == Some(2) && mdb.container_number("T") == Some(2)
}

fn has_lists(mdb: &Mdb) -> bool {
    mdb.parameter_list().len() == 4
        && mdb.calibration_list().len() == 3
        && mdb.container_list().len() == 3
}

fn has_links(mdb: &Mdb) -> bool {
    links(mdb, 1) == (Some(0), Some(0))
}

fn has_items(mdb: &Mdb) -> bool {
    calibration_name(mdb, 2) == b"e".as_slice() && children(mdb, 0) == [1].as_slice()
}

/// The database of the sheets with each form, with these calibrations.
fn each(alloc: Global, calibrations: &str) -> Result<Mdb, MdbFault> {
    database(
        alloc,
        (each_parameter_text(), calibrations, each_container_text()),
    )
}

/// Whether a database is that one, where there is one.
fn is_each(alloc: Global, mdb: &Mdb, calibrations: &str) -> Option<bool> {
    match each(alloc, calibrations) {
        Ok(other) => Some(mdb.equals(&other)),
        Err(_) => None,
    }
}

fn is_itself_alone(alloc: Global, mdb: &Mdb) -> bool {
    is_each(alloc, mdb, each_calibration_text()) == Some(true)
        && is_each(alloc, mdb, other_calibration_text()) == Some(false)
}

/// What of that database is otherwise.
fn other_of(alloc: Global, mdb: &Mdb) -> Option<&'static str> {
    if !has_numbers(mdb) {
        Some("a number by its name")
    } else if !has_lists(mdb) {
        Some("the length of a list")
    } else if !has_links(mdb) {
        Some("a link to another item")
    } else if !has_items(mdb) {
        Some("an item by its number")
    } else if !is_itself_alone(alloc, mdb) {
        Some("what it is equal to")
    } else {
        None
    }
}

/// The same of a copy.
fn other_of_copy(alloc: Global, checked: Result<Mdb, MdbFault>) -> Option<&'static str> {
    match checked {
        Ok(mdb) => {
            mdb.is_sound();
            match mdb.copy() {
                Ok(copy) => other_of(alloc, &copy),
                Err(_) => Some("a copy"),
            }
        }
        Err(_) => Some("its sheets"),
    }
}

#[test]
fn items_of_a_database(rt: HostRuntime) -> Result<(), Fail> {
    let checked = each(rt.alloc(), each_calibration_text());
    none_other(other_of_copy(rt.alloc(), checked))
}

/// The row of the label of a raw number, where the parameter with a number is there.
fn label_row(mdb: &Mdb, number: u16, raw: i128) -> Option<usize> {
    if number < mdb.parameters() {
        mdb.label_row(number, raw)
    } else {
        None
    }
}

/// The number of a parameter, a raw number, and the row of its label.
type Label = (u16, i128, Option<usize>);

const LABEL_ROWS: &[Label] = &[
    (0, 7, Some(0)),
    (0, -1, Some(1)),
    (0, 3, Some(2)),
    (0, 4, None),
    (1, 7, None),
];

/// A function, so that the table stands in no goal of its callers.
fn label_rows() -> &'static [Label] {
    LABEL_ROWS
}

fn has_labels(mdb: &Mdb, all: &[Label]) -> bool {
    for (number, raw, row) in all {
        if label_row(mdb, *number, *raw) != *row {
            return false;
        }
    }
    true
}

fn is_labelled(checked: Result<Mdb, MdbFault>) -> bool {
    match checked {
        Ok(mdb) => has_labels(&mdb, label_rows()),
        Err(_) => false,
    }
}

#[test]
fn labels_by_number(rt: HostRuntime) {
    let sheets = (labelled_text(), labels_text(), labelled_root_text());
    assert!(rt; is_labelled(database(rt.alloc(), sheets)));
}

/// Whether a database is spelled so.
fn is_spelled(alloc: Global, mdb: &Mdb, octets: &[u8]) -> bool {
    match mdb.to_bytes(alloc) {
        Ok(own) => own.as_slice() == octets,
        Err(_) => false,
    }
}

/// Whether octets are read as a database that is spelled so again.
fn is_read(alloc: Global, octets: &[u8]) -> bool {
    match Mdb::from_bytes(alloc, octets) {
        Ok(mdb) => is_spelled(alloc, &mdb, octets),
        Err(_) => false,
    }
}

/// Whether the database of sheets is spelled so, both ways.
fn is_both_ways(alloc: Global, checked: Result<Mdb, MdbFault>, octets: &[u8]) -> bool {
    match checked {
        Ok(mdb) => is_spelled(alloc, &mdb, octets) && is_read(alloc, octets),
        Err(_) => false,
    }
}

/// The same of octets that hexadecimal digits spell.
fn is_spelled_by(alloc: Global, sheets: Sheets<'_>, digits: &str) -> bool {
    match octets_of(alloc, digits) {
        Ok(octets) => is_both_ways(alloc, database(alloc, sheets), octets.as_slice()),
        Err(_) => false,
    }
}

#[test]
fn octets_both_ways(rt: HostRuntime) {
    let sheets = (parameters_text(), calibrations_text(), containers_text());
    assert!(rt; is_spelled_by(rt.alloc(), sheets, octets_text()));
}

#[test]
fn each_octets_both_ways(rt: HostRuntime) {
    let sheets = (
        each_parameter_text(),
        each_calibration_text(),
        each_container_text(),
    );
    assert!(rt; is_spelled_by(rt.alloc(), sheets, each_octets_text()));
}

/// Whether octets are no database's.
fn is_malformed(alloc: Global, octets: &[u8]) -> bool {
    match Mdb::from_bytes(alloc, octets) {
        Err(fault) => fault == NotMdb::Malformed,
        Ok(_) => false,
    }
}

/// The length of the first front of octets that is some database's.
fn front_of_a_database(alloc: Global, octets: &[u8]) -> Option<usize> {
    for place in 0..octets.len() {
        if !is_malformed(alloc, &octets[..place]) {
            return Some(place);
        }
    }
    None
}

/// The same of octets that hexadecimal digits spell.
fn front_in(alloc: Global, digits: &str) -> Option<usize> {
    match octets_of(alloc, digits) {
        Ok(octets) => front_of_a_database(alloc, octets.as_slice()),
        Err(_) => Some(0),
    }
}

#[test]
fn refuses_each_front(rt: HostRuntime) -> Result<(), Fail> {
    none_other(front_in(rt.alloc(), octets_text()).or(front_in(rt.alloc(), each_octets_text())))
}

/// Whether octets are refused, or are what the database that they give spells.
fn is_refused_or_own(alloc: Global, octets: &[u8]) -> bool {
    match Mdb::from_bytes(alloc, octets) {
        Ok(mdb) => is_spelled(alloc, &mdb, octets),
        Err(fault) => fault == NotMdb::Malformed,
    }
}

/// Whether that is so where the octet at a place has these bits changed. Afterwards it is as before.
fn is_own_with(alloc: Global, octets: &mut [u8], place: usize, bits: u8) -> bool {
    if place >= octets.len() {
        return false;
    }
    octets[place] ^= bits;
    let is_own = is_refused_or_own(alloc, octets);
    octets[place] ^= bits;
    is_own
}

/// The first place whose octet has a change that isn't refused, nor a database's own spelling.
fn other_spelling(alloc: Global, octets: &mut [u8]) -> Option<usize> {
    for place in 0..octets.len() {
        let is_own = is_own_with(alloc, octets, place, 1)
            && is_own_with(alloc, octets, place, 2)
            && is_own_with(alloc, octets, place, 128);
        if !is_own {
            return Some(place);
        }
    }
    None
}

/// The same of octets that hexadecimal digits spell.
fn other_in(alloc: Global, digits: &str) -> Option<usize> {
    match octets_of(alloc, digits) {
        Ok(mut octets) => other_spelling(alloc, octets.as_mut_slice()),
        Err(_) => Some(0),
    }
}

#[test]
fn refuses_other_spellings(rt: HostRuntime) -> Result<(), Fail> {
    none_other(other_in(rt.alloc(), octets_text()).or(other_in(rt.alloc(), each_octets_text())))
}

/// Whether hexadecimal digits spell no database's octets.
fn spell_nothing(alloc: Global, digits: &str) -> bool {
    match octets_of(alloc, digits) {
        Ok(octets) => is_malformed(alloc, octets.as_slice()),
        Err(_) => false,
    }
}

#[test]
fn refuses_neighbours_of_one_name(rt: HostRuntime) {
    assert!(rt; spell_nothing(rt.alloc(), neighbours_text()));
}

/// What two threads find in one database.
fn found(rt: &(impl Threads + Sync), mdb: &Mdb) -> (Option<u16>, Option<u16>) {
    join(
        rt,
        || mdb.container_number("B"),
        || mdb.parameter_number("v"),
    )
}

fn is_shared(rt: &(impl Threads + Sync), checked: Result<Mdb, MdbFault>) -> bool {
    match checked {
        Ok(mdb) => found(rt, &mdb) == (Some(2), Some(1)),
        Err(_) => false,
    }
}

#[test]
fn threads_share_a_database(rt: HostRuntime) {
    let sheets = (parameters_text(), calibrations_text(), containers_text());
    assert!(rt; is_shared(&rt, database(rt.alloc(), sheets)));
}
