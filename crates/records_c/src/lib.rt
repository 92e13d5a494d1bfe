//! The calls of `records` for a program in C, which include/umidezh.h declares: they take byte slices and give numbers, as C has them.
#![tactic(auto)]

ghost use Rattle.std.specs.Prelude.{◌≡◌};
ghost use Rattle.records.specs.Records.{check_of, leading};

/// The form of one record, 0, 3 or 16.
#[unsafe(no_mangle)]
pub extern "C" fn umidezh_check_record(bytes: &[u8]) -> u8
    ensures { result ≡ check_of bytes.now }
{
    records::umidezh_check_record(bytes)
}

/// How many records are well formed before the first that is not.
#[unsafe(no_mangle)]
pub extern "C" fn umidezh_count_records(sequence: &[u8]) -> usize
    ensures { result ≡ leading sequence.now }
{
    records::umidezh_count_records(sequence)
}
