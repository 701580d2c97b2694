//! The spacecraft clock kernels of the worked rows, each with a setup file that names it, and `naif.tls`.

use st_outside::{FileMap, OutOfMemory};
use std::alloc::Global;

/// A setup file's name, its clock kernel's name, and what that kernel says after the clock's data type.
const CLOCKS: [(&str, &str, &str); 8] = [
    // A count of seconds and of parts of 256.
    (
        "mission.setup",
        "clockc.tsc",
        "SCLK01_TIME_SYSTEM_82   = ( 1 )\n\
         SCLK01_N_FIELDS_82      = ( 2 )\n\
         SCLK01_MODULI_82        = ( 4294967296 256 )\n\
         SCLK01_OFFSETS_82       = ( 0 0 )\n\
         SCLK01_OUTPUT_DELIM_82  = ( 1 )\n\
         SCLK_PARTITION_START_82 = ( 0.0000000000000E+00 )\n\
         SCLK_PARTITION_END_82   = ( 1.0995116277750E+12 )\n\
         SCLK01_COEFFICIENTS_82  = ( 0.0E+00 0.0E+00 1.0E+00 )\n",
    ),
    // The same with counts of two seconds, which reach beyond the range of times.
    (
        "fast.setup",
        "fast.tsc",
        "SCLK01_TIME_SYSTEM_82   = ( 1 )\n\
         SCLK01_N_FIELDS_82      = ( 2 )\n\
         SCLK01_MODULI_82        = ( 4294967296 256 )\n\
         SCLK01_OFFSETS_82       = ( 0 0 )\n\
         SCLK01_OUTPUT_DELIM_82  = ( 1 )\n\
         SCLK_PARTITION_START_82 = ( 0.0000000000000E+00 )\n\
         SCLK_PARTITION_END_82   = ( 1.0995116277750E+12 )\n\
         SCLK01_COEFFICIENTS_82  = ( 0 0 2 )\n",
    ),
    // Four fields, as Galileo's.
    (
        "gll.setup",
        "gll.tsc",
        "SCLK01_TIME_SYSTEM_82   = ( 1 )\n\
         SCLK01_N_FIELDS_82      = ( 4 )\n\
         SCLK01_MODULI_82        = ( 16777215 91 10 8 )\n\
         SCLK01_OFFSETS_82       = ( 0 0 0 0 )\n\
         SCLK01_OUTPUT_DELIM_82  = ( 2 )\n\
         SCLK_PARTITION_START_82 = ( 0.0000000000000E+00 )\n\
         SCLK_PARTITION_END_82   = ( 122138125199 )\n\
         SCLK01_COEFFICIENTS_82  = ( 0 0 60.666 )\n",
    ),
    // A field that counts from 1, as Voyager's.
    (
        "vgr.setup",
        "vgr.tsc",
        "SCLK01_TIME_SYSTEM_82   = ( 1 )\n\
         SCLK01_N_FIELDS_82      = ( 3 )\n\
         SCLK01_MODULI_82        = ( 65536 60 800 )\n\
         SCLK01_OFFSETS_82       = ( 0 0 1 )\n\
         SCLK01_OUTPUT_DELIM_82  = ( 2 )\n\
         SCLK_PARTITION_START_82 = ( 0.0000000000000E+00 )\n\
         SCLK_PARTITION_END_82   = ( 3145727999 )\n\
         SCLK01_COEFFICIENTS_82  = ( 0.0E+00 0.0E+00 1.0E+00 )\n",
    ),
    // Two records, between which the clock stands still for ten seconds.
    (
        "cap.setup",
        "cap.tsc",
        "SCLK01_TIME_SYSTEM_82   = ( 1 )\n\
         SCLK01_N_FIELDS_82      = ( 2 )\n\
         SCLK01_MODULI_82        = ( 4294967296 256 )\n\
         SCLK01_OFFSETS_82       = ( 0 0 )\n\
         SCLK01_OUTPUT_DELIM_82  = ( 1 )\n\
         SCLK_PARTITION_START_82 = ( 0.0000000000000E+00 )\n\
         SCLK_PARTITION_END_82   = ( 1.0995116277750E+12 )\n\
         SCLK01_COEFFICIENTS_82  = ( 0 0 1 25600 110 1 )\n",
    ),
    // Two records, at the second of which the clock is set forward.
    (
        "gap.setup",
        "gap.tsc",
        "SCLK01_TIME_SYSTEM_82   = ( 1 )\n\
         SCLK01_N_FIELDS_82      = ( 2 )\n\
         SCLK01_MODULI_82        = ( 4294967296 256 )\n\
         SCLK01_OFFSETS_82       = ( 0 0 )\n\
         SCLK01_OUTPUT_DELIM_82  = ( 1 )\n\
         SCLK_PARTITION_START_82 = ( 0.0000000000000E+00 )\n\
         SCLK_PARTITION_END_82   = ( 1.0995116277750E+12 )\n\
         SCLK01_COEFFICIENTS_82  = ( 0 0 1 25600 90 1 )\n",
    ),
    // Two partitions.
    (
        "two.setup",
        "two.tsc",
        "SCLK01_TIME_SYSTEM_82   = ( 1 )\n\
         SCLK01_N_FIELDS_82      = ( 2 )\n\
         SCLK01_MODULI_82        = ( 4294967296 256 )\n\
         SCLK01_OFFSETS_82       = ( 0 0 )\n\
         SCLK01_OUTPUT_DELIM_82  = ( 1 )\n\
         SCLK_PARTITION_START_82 = ( 0 0 )\n\
         SCLK_PARTITION_END_82   = ( 1000 5000 )\n\
         SCLK01_COEFFICIENTS_82  = ( 0.0E+00 0.0E+00 1.0E+00 )\n",
    ),
    // Its parallel time is TT.
    (
        "tdt.setup",
        "tdt.tsc",
        "SCLK01_TIME_SYSTEM_82   = ( 2 )\n\
         SCLK01_N_FIELDS_82      = ( 2 )\n\
         SCLK01_MODULI_82        = ( 4294967296 256 )\n\
         SCLK01_OFFSETS_82       = ( 0 0 )\n\
         SCLK01_OUTPUT_DELIM_82  = ( 1 )\n\
         SCLK_PARTITION_START_82 = ( 0.0000000000000E+00 )\n\
         SCLK_PARTITION_END_82   = ( 1.0995116277750E+12 )\n\
         SCLK01_COEFFICIENTS_82  = ( 0 536500869.184 1 )\n",
    ),
];

/// Puts each clock kernel and its setup file into a folder, and a setup file that names no spacecraft.
pub fn put_clocks(alloc: Global, map: &mut FileMap) -> Result<(), OutOfMemory> {
    for (setup, kernel, clock) in CLOCKS {
        let mut text = naming(alloc, kernel)?;
        text.extend_from_slice(b"SPACECRAFT_ID = -82\n")?;
        map.put(setup.as_bytes(), text)?;
        let mut text = Vec::from_slice(
            alloc,
            b"KPL/SCLK\n\\begindata\n\
              SCLK_KERNEL_ID          = ( @2004-06-21/06:08:47.00 )\n\
              SCLK_DATA_TYPE_82       = ( 1 )\n",
        )?;
        text.extend_from_slice(clock.as_bytes())?;
        text.extend_from_slice(b"\\begintext\n")?;
        map.put(kernel.as_bytes(), text)?;
    }
    map.put(b"noid.setup", naming(alloc, "clockc.tsc")?)?;
    Ok(())
}

/// The lines that name `naif.tls` and a clock kernel.
fn naming(alloc: Global, kernel: &str) -> Result<Vec<u8>, OutOfMemory> {
    let mut text = Vec::from_slice(
        alloc,
        b"\\begindata\nLEAPSECONDS_FILE = 'naif.tls'\nSCLK_FILE = '",
    )?;
    text.extend_from_slice(kernel.as_bytes())?;
    text.extend_from_slice(b"'\n")?;
    Ok(text)
}
