//! A row: the words, the files and the input of a run, and how it ends.

use crate::folders::{files, folder};
use st_batch::{Status, run};
use st_outside::{FileMap, MemFiles, MemSink, MemSource, OutOfMemory};
use std::alloc::Global;

/// How the outside behaves: the calls of the files, of the input and of the output that fail, counted from 1, where 0
/// says that none does; how many bytes a read of a file gives at most; and how many a read of the input gives, and a
/// write takes, at most.
#[derive(Clone, Copy)]
pub struct Outside {
    pub files: u32,
    pub input: u32,
    pub output: u32,
    pub most: usize,
    pub streams: usize,
}

/// Nothing fails.
pub const SAFE: Outside = Outside {
    files: 0,
    input: 0,
    output: 0,
    most: usize::MAX,
    streams: usize::MAX,
};

/// Nothing fails, and the files give one byte at a time.
pub const SHORT: Outside = Outside {
    files: 0,
    input: 0,
    output: 0,
    most: 1,
    streams: usize::MAX,
};

/// What a row gives that meets no fault, it gives with each of these.
pub const SAFE_AND_SHORT: [Outside; 2] = [SAFE, SHORT];

/// Nothing fails, and no call gives or takes more bytes than this.
pub fn in_pieces(most: usize) -> Outside {
    Outside {
        most,
        streams: most,
        ..SAFE
    }
}

/// How a run of these words ends over these files and this input, and what it writes.
pub fn run_row(
    alloc: Global,
    words: &[String],
    files: FileMap,
    input: &[u8],
    outside: Outside,
) -> Result<(Status, Vec<u8>), OutOfMemory> {
    let failing_files = Vec::from_slice(alloc, &[outside.files])?;
    let mut files = MemFiles::short(files, failing_files, outside.most.max(1));
    let most = outside.streams.max(1);
    let failing_reads = Vec::from_slice(alloc, &[outside.input])?;
    let mut input = MemSource::short(Vec::from_slice(alloc, input)?, failing_reads, most);
    let failing_writes = Vec::from_slice(alloc, &[outside.output])?;
    let mut out = MemSink::short(alloc, failing_writes, most);
    let status = run(alloc, words, &mut files, &mut input, &mut out);
    Ok((status, Vec::from_slice(alloc, out.bytes())?))
}

/// How a batch of these lines ends over the folder of the worked rows, and what it writes.
pub fn run_batch(
    alloc: Global,
    lines: &[u8],
    outside: Outside,
) -> Result<(Status, Vec<u8>), OutOfMemory> {
    let words = batch(alloc)?;
    run_row(alloc, words.as_slice(), folder(alloc)?, lines, outside)
}

/// Words as the program takes them.
pub fn words(alloc: Global, texts: &[&str]) -> Result<Vec<String>, OutOfMemory> {
    let mut words = Vec::new(alloc);
    for text in texts {
        add_word(alloc, &mut words, text)?;
    }
    Ok(words)
}

/// Appends a word.
pub fn add_word(alloc: Global, words: &mut Vec<String>, text: &str) -> Result<(), OutOfMemory> {
    words.push(String::from_str(alloc, text)?)?;
    Ok(())
}

/// The words of a conversion from UTC to TAI with the setup `naif.tls`.
pub fn to_tai(alloc: Global, time: &str) -> Result<Vec<String>, OutOfMemory> {
    words(
        alloc,
        &[
            "-setup", "naif.tls", "-from", "UTC", "-to", "TAI", "-time", time,
        ],
    )
}

/// The words of a batch from UTC to TAI with the setup `naif.tls`.
pub fn batch(alloc: Global) -> Result<Vec<String>, OutOfMemory> {
    words(
        alloc,
        &["-setup", "naif.tls", "-from", "UTC", "-to", "TAI", "-batch"],
    )
}
