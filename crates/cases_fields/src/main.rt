// Runs the listing that the program `fields` prints on worked types, and the line of each refusal.
#![tactic(auto)]

mod listings;
mod refusals;

fn main(rt: HostRuntime) {
    if command::helped(
        &rt,
        b"usage: cases_fields\nRuns worked cases of the listing that fields prints and writes what each gives.\n",
    ) {
        return;
    }
    listings::type_cases();
    listings::depth_case();
    listings::refused_cases();
    refusals::first_half();
    refusals::second_half();
    refusals::short_room();
}
