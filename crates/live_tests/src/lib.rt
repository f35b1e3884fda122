// Tests of live_archive: fills by one pass while another ingests, two passes that fill one interval, two threads that
// ingest, and a link, a filler and a reader in threads; what a glance tells behind each call, to the last publication and
// behind it, and four glances in threads beside a link.
//
// Functions are generic in the disk, and give it up by `close` and `into_disk`: over `MemDisk` the same costs minutes
// to prove. What only contracts see of a pass is live_archive's to say (`calls_add`).
#![tactic(auto)]

#[cfg(test)]
mod beside;
#[cfg(test)]
mod callers;
#[cfg(test)]
mod calls;
#[cfg(test)]
mod ends;
#[cfg(test)]
mod glance_rows;
#[cfg(test)]
mod glance_threads;
#[cfg(test)]
mod looks;
#[cfg(test)]
mod parts;
#[cfg(test)]
mod rows;
#[cfg(test)]
mod threads;
