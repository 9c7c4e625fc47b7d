// The keystreams and sample internal states of annex C of ISO/IEC 18033-4, computed by the ciphers and printed as the annex prints them, and sealed
// records, which the annex has none of.
#![tactic(auto)]

fn main(rt: HostRuntime) {
    let stdout = rt.stdout();
    mugi_vectors::print(stdout);
    snow2_vectors::print128(stdout);
    snow2_vectors::print256(stdout);
    rabbit_vectors::print(stdout);
    kcipher2_vectors::print(stdout);
    zuc_vectors::print(stdout);
    sealing_vectors::print(stdout);
}
