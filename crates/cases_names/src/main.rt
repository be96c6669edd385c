// Runs document 02's cases of names with leftovers, and writes what each gives.
#![tactic(auto)]

mod stop_names;

fn main(rt: HostRuntime) {
    if command::helped(
        &rt,
        b"usage: cases_names\nRuns worked cases of comparing names and writes what each gives.\n",
    ) {
        return;
    }
    stop_names::array_cases();
    stop_names::two_names_cases();
    stop_names::whole_cases();
    stop_names::end_cases();
}
