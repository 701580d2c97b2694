//! The files of the worked rows, and the folders that hold them.

use st_outside::{FileMap, OutOfMemory};
use std::alloc::Global;

/// `naif.tls`: a leapseconds kernel with the usual values.
pub const NAIF: &[u8] = b"\
    KPL/LSK\n\
    Leapseconds kernel.\n\
    \\begindata\n\
    DELTET/DELTA_T_A = 32.184\n\
    DELTET/K         = 1.657D-3\n\
    DELTET/EB        = 1.671D-2\n\
    DELTET/M         = ( 6.239996D0 1.99096871D-7 )\n\
    DELTET/DELTA_AT  = ( 10, @1972-JAN-1\n\
    \x20                    11, @1972-JUL-1\n\
    \x20                    12, @1973-JAN-1\n\
    \x20                    13, @1974-JAN-1\n\
    \x20                    14, @1975-JAN-1\n\
    \x20                    15, @1976-JAN-1\n\
    \x20                    16, @1977-JAN-1\n\
    \x20                    17, @1978-JAN-1\n\
    \x20                    18, @1979-JAN-1\n\
    \x20                    19, @1980-JAN-1\n\
    \x20                    20, @1981-JUL-1\n\
    \x20                    21, @1982-JUL-1\n\
    \x20                    22, @1983-JUL-1\n\
    \x20                    23, @1985-JUL-1\n\
    \x20                    24, @1988-JAN-1\n\
    \x20                    25, @1990-JAN-1\n\
    \x20                    26, @1991-JAN-1\n\
    \x20                    27, @1992-JUL-1\n\
    \x20                    28, @1993-JUL-1\n\
    \x20                    29, @1994-JUL-1\n\
    \x20                    30, @1996-JAN-1\n\
    \x20                    31, @1997-JUL-1\n\
    \x20                    32, @1999-JAN-1\n\
    \x20                    33, @2006-JAN-1\n\
    \x20                    34, @2009-JAN-1\n\
    \x20                    35, @2012-JUL-1\n\
    \x20                    36, @2015-JUL-1\n\
    \x20                    37, @2017-JAN-1 )\n\
    \\begintext\n";

/// The last pair of `naif.tls` and what stands after it.
const LAST_PAIR: &[u8] = b"\n                     37, @2017-JAN-1 )\n\\begintext\n";

/// `short.tls`: `naif.tls` without the pair of 37.
fn short(alloc: Global) -> Result<Vec<u8>, OutOfMemory> {
    let front = NAIF.strip_suffix(LAST_PAIR).unwrap_or(NAIF);
    let mut file = Vec::from_slice(alloc, front)?;
    file.extend_from_slice(b" )\n\\begintext\n")?;
    Ok(file)
}

/// `values.ker`: a string, and two numbers.
const VALUES: &[u8] = b"\\begindata\nX = 'it''s'\nY = -1.5D+2\nZ += @1972-JAN-1\n";

/// `more.tls`: one more pair.
const MORE: &[u8] = b"\\begindata\nDELTET/DELTA_AT += ( 38, @2030-JAN-1 )\n";

/// `mixed.ker`: a list of both kinds.
const MIXED: &[u8] = b"\\begindata\nX = ( 1, 'a' )\n";

/// `cut.ker`: a list that does not end.
const CUT: &[u8] = b"\\begindata\nX = ( 1,\n";

/// `plain.ker`: a file of commentary alone, with what data may not have.
const PLAIN: &[u8] = b"a kernel\nwithout data: X = ( \x80\n";

/// `wrong.ker`: a table that is a text.
const WRONG: &[u8] = b"\\begindata\nDELTET/DELTA_AT = 'ten'\n";

/// `made.tls`: a leapseconds kernel of two pairs, each on a line.
const MADE: &[u8] = b"\
    KPL/LSK\n\
    \\begindata\n\
    DELTET/DELTA_T_A = 32.184\n\
    DELTET/K = 1.657D-3\n\
    DELTET/EB = 1.671D-2\n\
    DELTET/M = ( 6.239996D0 1.99096871D-7 )\n\
    DELTET/DELTA_AT = (\n\
    10, @1972-01-01\n\
    11, @1972-07-01\n\
    )\n\
    \\begintext\n";

/// `minus.tls`: one more pair, by which a second is removed.
const MINUS: &[u8] = b"\\begindata\nDELTET/DELTA_AT += ( 36, @2030-JAN-1 )\n";

/// `same.tls`: one more pair, by which no second would be inserted.
const SAME: &[u8] = b"\\begindata\nDELTET/DELTA_AT += ( 37, @2030-JAN-1 )\n";

/// `leap.tls`: one more pair, by which two seconds would be inserted.
const LEAP: &[u8] = b"\\begindata\nDELTET/DELTA_AT += ( 39, @2030-JAN-1 )\n";

/// `zero.tls` is `naif.tls` with an orbit that is a circle, on which nothing moves.
const ZERO: &[u8] = b"\\begindata\nDELTET/EB = 0\nDELTET/M = ( 0 0 )\n";

/// `nok.tls` is `naif.tls` by which TDB is TT.
const NO_K: &[u8] = b"\\begindata\nDELTET/K = 0\n";

/// `naif.tls`, and after it what is given anew.
fn naif_with(alloc: Global, anew: &[u8]) -> Result<Vec<u8>, OutOfMemory> {
    let mut file = Vec::from_slice(alloc, NAIF)?;
    file.extend_from_slice(anew)?;
    Ok(file)
}

/// A folder that holds the files of the worked rows.
pub fn folder(alloc: Global) -> Result<FileMap, OutOfMemory> {
    let mut map = files(alloc)?;
    map.put(b"short.tls", short(alloc)?)?;
    map.put(b"empty.ker", Vec::new(alloc))?;
    map.put(b"zero.tls", naif_with(alloc, ZERO)?)?;
    map.put(b"nok.tls", naif_with(alloc, NO_K)?)?;
    let others: [(&[u8], &[u8]); 10] = [
        (b"more.tls", MORE),
        (b"values.ker", VALUES),
        (b"mixed.ker", MIXED),
        (b"cut.ker", CUT),
        (b"plain.ker", PLAIN),
        (b"wrong.ker", WRONG),
        (b"made.tls", MADE),
        (b"minus.tls", MINUS),
        (b"leap.tls", LEAP),
        (b"same.tls", SAME),
    ];
    for (name, bytes) in others {
        map.put(name, Vec::from_slice(alloc, bytes)?)?;
    }
    Ok(map)
}

/// A folder that holds `naif.tls`.
pub fn files(alloc: Global) -> Result<FileMap, OutOfMemory> {
    let mut map = FileMap::new(alloc);
    map.put(b"naif.tls", Vec::from_slice(alloc, NAIF)?)?;
    Ok(map)
}
