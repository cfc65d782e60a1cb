//! Groups by their names.
ghost use Rattle.std.specs.Prelude.{◌≡◌, ◌<◌, ◌≤◌, IsTrue, Some, length, map, slice_get, slice_set, string_bytes};
ghost use Rattle.regress_calls.specs.Names.{AreWritten};

use regress::CaptureGroupName;

/// Whether a group has a name.
fn is_named(names: &[CaptureGroupName], index: usize, name: &str) -> bool
    ensures named { IsTrue result → slice_get (map string_bytes names.now) index ≡ Some name.now }
    ensures other { slice_get (map string_bytes names.now) index ≡ Some name.now → IsTrue result }
{
    match names.get(index) {
        Some(other) => other.as_str() == name,
        None => false,
    }
}

/// Writes the numbers of the groups that have a name, in order, as many as there is room for, and tells how many have it. No group
/// has the empty name.
pub(crate) fn write_numbers(names: &[CaptureGroupName], name: &str, numbers: &mut [usize]) -> usize
    ensures written { AreWritten (map string_bytes names.now) name.now numbers.old result numbers.new }
    ensures few { result ≤ length names.now }
{
    if name.is_empty() {
        return 0;
    }
    let mut count = 0;
    for k in 0..names.len() {
        if is_named(names, k, name) {
            write_number(numbers, count, k + 1);
            count += 1;
        }
    }
    count
}

/// Writes a number at a place, where there is room.
fn write_number(numbers: &mut [usize], at: usize, number: usize)
    ensures { numbers.new ≡ slice_set numbers.old at number }
{
    if at < numbers.len() {
        numbers[at] = number;
    }
}
