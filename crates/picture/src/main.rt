// The program: the points of standard input become a picture on standard output.
#![tactic(auto)]

fn main(rt: HostRuntime) {
    let mut bytes = [0; 65537];
    let length = ends::read_input(rt, &mut bytes);
    let mut drawn = [0; drawing::MOST_DRAWN];
    let n = drawing::picture(&bytes[..length], &mut drawn);
    ends::write_output(rt, &drawn[..n]);
}
