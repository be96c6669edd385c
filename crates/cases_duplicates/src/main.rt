// Runs document 02's cases of records that are the same as an earlier one, and one of each refusal, and writes what each gives.
#![tactic(auto)]

mod calls;
mod lengths;
mod types;

fn main(rt: HostRuntime) {
    if command::helped(
        &rt,
        b"usage: cases_duplicates\nRuns worked cases of records that are the same as an earlier one and writes what each gives.\n",
    ) {
        return;
    }
    types::group_cases();
    types::room_cases();
    types::length_cases();
    types::single_cases();
    lengths::workspace_case();
    types::word_cases();
    types::refused_cases();
    calls::bad_tables();
}
