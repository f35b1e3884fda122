// The kinds of crash that tests try: what is left of the octets that no sync has made durable.
ghost use Rattle.std.specs.Prelude.{◌≡◌, ◌∷◌, ℕ, List, reverse, drop, IfOk, OnOk};
ghost use Rattle.arch_disk.specs.Files.{image_in};
ghost use Rattle.arch_disk.specs.declared.call_log.Call.{Call as ACall};
ghost use Rattle.arch_disk.specs.CallLog.{reads_of};
ghost use Rattle.arch_disk.specs.Image.{InFile, Becomes};
ghost use Rattle.arch_disk.specs.Crash.{filling, written_as, cut_as, crash_of};

use crate::call_log::{Call, Write};
use crate::files::Files;
use std::alloc::{AllocError, Global};

/// What octets hold that were written and not synced.
#[derive(Clone, Copy, Debug, PartialEq, Eq)]
pub enum Unsynced {
    /// What they held at the last sync, and 0 where there was no octet.
    Before,
    Written,
    Zeros,
    /// 255.
    Ones,
}

/// How long a file is whose length was changed and not synced.
#[derive(Clone, Copy, Debug, PartialEq, Eq)]
pub enum Length {
    Old,
    New,
}

/// One kind of crash, in every file alike.
#[derive(Clone, Copy, Debug, PartialEq, Eq)]
pub struct Crash {
    pub unsynced: Unsynced,
    pub length: Length,
}

impl Crash {
    /// The eight kinds.
    pub const ALL: [Crash; 8] = [
        Crash {
            unsynced: Unsynced::Before,
            length: Length::Old,
        },
        Crash {
            unsynced: Unsynced::Before,
            length: Length::New,
        },
        Crash {
            unsynced: Unsynced::Written,
            length: Length::Old,
        },
        Crash {
            unsynced: Unsynced::Written,
            length: Length::New,
        },
        Crash {
            unsynced: Unsynced::Zeros,
            length: Length::Old,
        },
        Crash {
            unsynced: Unsynced::Zeros,
            length: Length::New,
        },
        Crash {
            unsynced: Unsynced::Ones,
            length: Length::Old,
        },
        Crash {
            unsynced: Unsynced::Ones,
            length: Length::New,
        },
    ];
}

// What stands where `written` was to go, and `here` stood.
fn fill(
    alloc: Global,
    unsynced: Unsynced,
    written: &[u8],
    here: &[u8],
) -> Result<Vec<u8>, AllocError>
    ensures { IfOk result (λ octets. octets.items ≡ filling unsynced written.now here.now) }
{
    let len = written.len();
    match unsynced {
        Unsynced::Written => written.to_vec(alloc),
        Unsynced::Before => {
            let mut octets = here.to_vec(alloc)?;
            octets.resize(len, 0)?;
            Ok(octets)
        }
        Unsynced::Zeros => vec![in alloc; 0u8; len],
        Unsynced::Ones => vec![in alloc; 255u8; len],
    }
}

// The octets from a place on.
fn from(octets: &[u8], at: u64) -> &[u8]
    ensures { result.now ≡ drop at octets.now }
{
    if at < octets.len() as u64 {
        &octets[at as usize..]
    } else {
        &[]
    }
}

// A write that isn't synced.
fn tear(alloc: Global, image: &mut Files, write: &Write, crash: Crash) -> Result<(), AllocError>
    ensures { OnOk result (InFile (Becomes (written_as crash write.now.at write.now.octets.items)) write.now.file
        (image_in image.old) (image_in image.new)) }
{
    let old = image.content(write.file);
    let len = old.len() as u64;
    let octets = fill(alloc, crash.unsynced, &write.octets, from(old, write.at))?;
    image.write(write.file, write.at, &octets)?;
    match crash.length {
        Length::Old => image.cut(write.file, len),
        Length::New => {}
    }
    Ok(())
}

// A cut that isn't synced.
fn shorten(
    alloc: Global,
    image: &mut Files,
    file: u32,
    len: u64,
    crash: Crash,
) -> Result<(), AllocError>
    ensures { OnOk result (InFile (Becomes (cut_as crash len)) file (image_in image.old) (image_in image.new)) }
{
    match crash.length {
        Length::Old => {
            let past = from(image.content(file), len);
            let octets = fill(alloc, crash.unsynced, past, past)?;
            image.write(file, len, &octets)?;
        }
        Length::New => image.cut(file, len),
    }
    Ok(())
}

// One call more: what the files read as after it, and the image.
fn replay(
    alloc: Global,
    reads: &mut Files,
    image: &mut Files,
    call: &Call,
    crash: Crash,
) -> Result<(), AllocError>
    ensures { (past : List ACall) → ((f : ℕ) → image_in reads.old f ≡ reads_of past f) →
        ((f : ℕ) → image_in image.old f ≡ crash_of crash past f)
        → OnOk result (((f : ℕ) → image_in reads.new f ≡ reads_of (call.now ∷ past) f) ×
        ((f : ℕ) → image_in image.new f ≡ crash_of crash (call.now ∷ past) f)) }
{
    match call {
        Call::Wrote(write) => {
            reads.write(write.file, write.at, &write.octets)?;
            tear(alloc, image, write, crash)?;
        }
        Call::FailedWrite(write) => tear(alloc, image, write, crash)?,
        Call::Cut { file, len } => {
            reads.cut(*file, *len);
            shorten(alloc, image, *file, *len, crash)?;
        }
        Call::FailedCut { file, len } => shorten(alloc, image, *file, *len, crash)?,
        Call::Synced { file } => image.put(*file, reads.content(*file))?,
    }
    Ok(())
}

// The image that a crash of this kind leaves after these calls, the oldest first.
pub(crate) fn image_after(alloc: Global, calls: &[Call], crash: Crash) -> Result<Files, AllocError>
    ensures { IfOk result (λ files. (f : ℕ) → image_in files f ≡ crash_of crash (reverse calls.now) f) }
{
    let mut reads = Files::new(alloc);
    let mut image = Files::new(alloc);
    for call in calls {
        replay(alloc, &mut reads, &mut image, call, crash)?;
    }
    Ok(image)
}
