// The two ends of a program: standard input and standard output. What fails there is said on standard error, never passed over.
#![tactic(auto)]

ghost use Rattle.io.specs.Counts.{IsPrefixLen};

use std::io::{Print, Read};

/// Writes the bytes to standard error. Where that fails, there is no place left to say so.
pub fn write_error(rt: HostRuntime, bytes: &[u8]) {
    let _told = rt.stderr().write_all(bytes).is_ok();
}

/// Reads standard input into the array, until the array is full or the input ends, and gives how many bytes were read. A pipe may give a part at a
/// time. Where a read fails, that is said, and what was read before counts.
pub fn read_input(rt: HostRuntime, bytes: &mut [u8]) -> usize
    ensures { IsPrefixLen result bytes.new }
{
    let mut stdin = rt.stdin();
    let mut length = 0;
    while length < bytes.len() {
        match stdin.read(&mut bytes[length..]) {
            Ok(0) => break,
            Ok(more) => length += more,
            Err(_) => {
                write_error(
                    rt,
                    b"Standard input could not be read to its end: what was read before is taken for all of it.\n",
                );
                break;
            }
        }
    }
    length
}

/// Writes the bytes to standard output.
pub fn write_output(rt: HostRuntime, bytes: &[u8]) {
    if rt.stdout().write_all(bytes).is_err() {
        write_error(rt, b"Standard output could not be written whole.\n");
    }
}
