//! The rows of one group while rows come one after the other.

ghost use Rattle.std.specs.Prelude.{◌≡◌, ◌+◌, ◌*◌, ◌<◌, ◌≤◌, ◌++◌, ◌∷◌, [], length, map, nat_eq, vec_len, vec_capacity, IfOk, OnOk, OnErr};
ghost use lib.Pointwise.{pointwise};
ghost use Rattle.segment_codec.specs.Segment.{IsSegment, segment_octets};
ghost use Rattle.param_segments.specs.GroupContents.{AreContents, segment_closed, columns_by_rows, every_nth, first_contents, group_contents, group_octets, group_starts, segment_by_rows, with_room, with_values};
ghost use Rattle.param_segments.specs.Rows.{set_row};

use arch_types::key::Key;
use container_extract::values::RawValue;
use segment_codec::{
    ColumnList, KeyList, MOST_ROWS, ParameterList, RawColumn, Segment, put_segment,
};
use std::alloc::{AllocError, Global};

/// Rows of one group.
#[derive(Drop)]
pub struct Group {
    /// The parameters of the values of each of its rows.
    pub parameters: Vec<u16>,
    /// The octets of its full segments.
    pub octets: Vec<u8>,
    /// Where in them each segment begins.
    pub starts: Vec<u32>,
    /// The keys of the rows behind the full segments.
    pub keys: Vec<Key>,
    /// Their raw numbers, row by row.
    pub raws: Vec<i128>,
}

/// Every width-th raw number from a place on, so many.
fn every_nth(
    alloc: Global,
    raws: &[i128],
    from: usize,
    width: usize,
    count: usize,
) -> Result<Vec<i128>, AllocError>
    requires from { from < width }
    requires len { length raws.now ≡ count * width }
    ensures { IfOk result (λ column. column.items ≡ every_nth from width count raws.now) }
{
    let mut column = Vec::with_capacity(alloc, count)?;
    let mut rest = raws;
    for _ in 0..count {
        column.push_reserved(rest[from]);
        let (_, after) = rest.split_at(width);
        rest = after;
    }
    Ok(column)
}

/// The columns of raw numbers that stand row by row.
fn columns_by_rows(
    alloc: Global,
    raws: &[i128],
    width: usize,
    count: usize,
) -> Result<ColumnList, AllocError>
    requires { length raws.now ≡ count * width }
    ensures { IfOk result (λ columns. columns ≡ columns_by_rows width count raws.now) }
{
    let mut columns = ColumnList::from_vec(Vec::with_capacity(alloc, width)?);
    for from in 0..width {
        columns.push(RawColumn::from_vec(every_nth(alloc, raws, from, width, count)?))?;
    }
    Ok(columns)
}

/// The segment of keys, and of raw numbers row by row.
fn segment_by_rows(
    alloc: Global,
    parameters: &[u16],
    keys: &[Key],
    raws: &[i128],
) -> Result<Segment, AllocError>
    requires { length raws.now ≡ length keys.now * length parameters.now }
    ensures { IfOk result (λ segment. segment ≡ segment_by_rows parameters.now keys.now raws.now) }
{
    Ok(Segment {
        parameters: ParameterList::from_vec(Vec::from_slice(alloc, parameters)?),
        keys: KeyList::from_vec(Vec::from_slice(alloc, keys)?),
        columns: columns_by_rows(alloc, raws, parameters.len(), keys.len())?,
    })
}

/// Adds the octets of the segment of keys and raw numbers to a buffer. Refused, it leaves the buffer as it was.
fn put_rows(
    alloc: Global,
    out: &mut Vec<u8>,
    parameters: &[u16],
    keys: &[Key],
    raws: &[i128],
) -> Result<(), AllocError>
    requires len { length raws.now ≡ length keys.now * length parameters.now }
    requires segment { IsSegment (segment_by_rows parameters.now keys.now raws.now) }
    ensures ok { OnOk result (out.new.items ≡ out.old.items ++ segment_octets
        (segment_by_rows parameters.now keys.now raws.now)) }
    ensures err { OnErr result (out.new.items ≡ out.old.items) }
{
    let segment = segment_by_rows(alloc, parameters, keys, raws)?;
    put_segment(alloc, out, &segment)
}

/// Adds the parameters of values to a buffer with room for them.
fn put_parameters(parameters: &mut Vec<u16>, values: &[RawValue])
    requires { vec_len parameters.old + length values.now ≤ vec_capacity parameters.old }
    ensures { parameters.new.items ≡ parameters.old.items ++ map (λ v. v.parameter) values.now }
{
    for value in values {
        parameters.push_reserved(value.parameter);
    }
}

/// Writes the parameters of values in place of what a buffer has. It takes no memory where there's room.
#[inline(never)]
pub(crate) fn write_parameters(
    parameters: &mut Vec<u16>,
    values: &[RawValue],
) -> Result<(), AllocError>
    ensures { OnOk result (parameters.new.items ≡ map (λ v. v.parameter) values.now) }
{
    parameters.clear();
    parameters.reserve(values.len())?;
    put_parameters(parameters, values);
    Ok(())
}

/// Adds the raw numbers of values to a buffer with room for them.
fn put_raws(raws: &mut Vec<i128>, values: &[RawValue])
    requires { vec_len raws.old + length values.now ≤ vec_capacity raws.old }
    ensures { raws.new.items ≡ raws.old.items ++ map (λ v. v.raw) values.now }
{
    for value in values {
        raws.push_reserved(value.raw);
    }
}

/// The parameters are those of the values, in their order.
pub(crate) fn are_parameters_of(parameters: &[u16], values: &[RawValue]) -> bool
    ensures { result ≡ pointwise nat_eq (map (λ v. v.parameter) values.now) parameters.now }
{
    if parameters.len() != values.len() {
        return false;
    }
    for i in 0..values.len() {
        if parameters[i] != values[i].parameter {
            return false;
        }
    }
    true
}

/// Adds places, each so much further, to a buffer.
fn put_starts(out: &mut Vec<u32>, from: usize, starts: &[u32]) -> Result<(), AllocError>
    ensures { OnOk result (out.new.items ≡ out.old.items ++ map (λ start. from + start) starts.now) }
{
    for start in starts {
        put_start(out, from, *start as usize)?;
    }
    Ok(())
}

/// Adds a place, so much further, to a buffer. There's no room for one from 2^32 on.
fn put_start(out: &mut Vec<u32>, from: usize, start: usize) -> Result<(), AllocError>
    ensures ok { OnOk result (out.new.items ≡ out.old.items ++ (from + start) ∷ []) }
    ensures err { OnErr result (out.new.items ≡ out.old.items) }
{
    let Some(sum) = from.checked_add(start) else {
        return Err(AllocError);
    };
    let Ok(place) = u32::try_from(sum) else {
        return Err(AllocError);
    };
    out.push(place)?;
    Ok(())
}

/// The raw numbers for which a group makes room at its first row: those of so many rows, but no more than 64 KiB of them,
/// since rows of many values may be few.
fn first_room(rows: usize, width: usize) -> usize
    ensures { width ≤ result }
{
    rows.saturating_mul(width).min(4096).max(width)
}

impl Group {
    /// A group of its first row, with room for about so many.
    pub(crate) fn of_first(
        alloc: Global,
        parameters: &[u16],
        key: Key,
        values: &[RawValue],
        rows: usize,
    ) -> Result<Group, AllocError>
        requires { parameters.now ≡ map (λ v. v.parameter) values.now }
        ensures { IfOk result (λ group. group_contents group ≡ first_contents (set_row key values.now)) }
    {
        let mut keys = Vec::with_capacity(alloc, rows.min(usize::from(MOST_ROWS)))?;
        keys.push(key)?;
        let mut raws = Vec::with_capacity(alloc, first_room(rows, values.len()))?;
        put_raws(&mut raws, values);
        Ok(Group {
            parameters: Vec::from_slice(alloc, parameters)?,
            octets: Vec::new(alloc),
            starts: Vec::new(alloc),
            keys,
            raws,
        })
    }

    /// Closes the open segment. Refused for want of memory, it leaves the group as it was.
    fn close(&mut self, alloc: Global) -> Result<(), AllocError>
        requires { AreContents (group_contents self.old) }
        ensures closed { OnOk result (group_contents self.new ≡ segment_closed (group_contents self.old)) }
        ensures kept { OnErr result (group_contents self.new ≡ group_contents self.old) }
        ensures emptied { OnOk result ((vec_len self.new.keys ≡ 0) × (vec_len self.new.raws ≡ 0)) }
        ensures room { (vec_capacity self.new.keys ≡ vec_capacity self.old.keys) ×
            (vec_capacity self.new.raws ≡ vec_capacity self.old.raws) }
    {
        let Ok(start) = u32::try_from(self.octets.len()) else {
            return Err(AllocError);
        };
        self.starts.reserve(1)?;
        put_rows(
            alloc,
            &mut self.octets,
            &self.parameters,
            &self.keys,
            &self.raws,
        )?;
        self.starts.push_reserved(start);
        self.keys.clear();
        self.raws.clear();
        Ok(())
    }

    /// Closes the open segment where it's full. Refused for want of memory, it leaves the group as it was.
    fn make_room(&mut self, alloc: Global) -> Result<(), AllocError>
        requires { AreContents (group_contents self.old) }
        ensures opened { OnOk result (group_contents self.new ≡ with_room (group_contents self.old)) }
        ensures kept { OnErr result (group_contents self.new ≡ group_contents self.old) }
        ensures shorter { OnOk result ((vec_len self.new.keys ≤ vec_len self.old.keys) ×
            (vec_len self.new.raws ≤ vec_len self.old.raws)) }
        ensures room { (vec_capacity self.new.keys ≡ vec_capacity self.old.keys) ×
            (vec_capacity self.new.raws ≡ vec_capacity self.old.raws) }
    {
        if self.keys.len() == usize::from(MOST_ROWS) {
            return self.close(alloc);
        }
        Ok(())
    }

    /// Adds a row of the group. Refused for want of memory, it leaves the group as it was.
    pub(crate) fn add(
        &mut self,
        alloc: Global,
        key: Key,
        values: &[RawValue],
    ) -> Result<(), AllocError>
        requires { AreContents (group_contents self.old) }
        ensures added { OnOk result (group_contents self.new ≡ with_values (group_contents self.old) key
            (map (λ v. v.raw) values.now)) }
        ensures kept { OnErr result (group_contents self.new ≡ group_contents self.old) }
    {
        self.keys.reserve(1)?;
        self.raws.reserve(values.len())?;
        self.make_room(alloc)?;
        self.keys.push_reserved(key);
        put_raws(&mut self.raws, values);
        Ok(())
    }

    /// Adds the octets of the group's segments, and the place where each begins.
    pub(crate) fn put(
        &self,
        alloc: Global,
        octets: &mut Vec<u8>,
        starts: &mut Vec<u32>,
    ) -> Result<(), AllocError>
        requires { AreContents (group_contents self.now) }
        ensures octets { OnOk result (octets.new.items ≡ octets.old.items ++ group_octets (group_contents self.now)) }
        ensures starts { OnOk result (starts.new.items ≡ starts.old.items ++ group_starts (length octets.old.items)
            (group_contents self.now)) }
    {
        put_starts(starts, octets.len(), &self.starts)?;
        put_start(starts, octets.len(), self.octets.len())?;
        octets.extend_from_slice(&self.octets)?;
        put_rows(alloc, octets, &self.parameters, &self.keys, &self.raws)
    }
}
