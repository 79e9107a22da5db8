// The program: the points of standard input become rectangles on standard output, or a refusal there and a sentence on standard error.
#![tactic(auto)]

// Writes the sentence of a refusal to standard error.
fn complain(rt: HostRuntime, outcome: text::Outcome) {
    let mut sentence = [0; text::MOST_SAID];
    let n = text::complaint(outcome.into(), &mut sentence);
    ends::write_error(rt, &sentence[..n]);
}

fn main(rt: HostRuntime) {
    let mut bytes = [0; 65537];
    let length = ends::read_input(rt, &mut bytes);
    let mut printed = [0; text::MOST_PRINTED];
    let outcome = text::answer(&bytes[..length], &mut printed);
    ends::write_output(rt, &printed[..outcome.printed]);
    if outcome.refusal.is_some() {
        complain(rt, outcome);
    }
}
