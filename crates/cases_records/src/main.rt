// Runs document 01's cases of comparing, and one of each refusal, and writes what each gives.
#![tactic(auto)]

mod records;
mod tables;

fn main(rt: HostRuntime) {
    if command::helped(
        &rt,
        b"usage: cases_records\nRuns worked cases of comparing records and writes what each gives.\n",
    ) {
        return;
    }
    records::gap_cases();
    records::overlap_cases();
    records::enumeration_cases();
    records::refused_cases();
    tables::bad_tables();
}
