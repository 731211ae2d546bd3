//! What is printed for refused words and rcfiles.

use crate::rows::has_text;
use mairix_options::{Name, RcFault, UsageFault};

const USAGE_FAULTS: [(UsageFault, &str); 4] = [
    (UsageFault::Parse, "bad words"),
    (UsageFault::TwoFormats, "-r and -x exclude each other"),
    (UsageFault::Help, "help"),
    (UsageFault::Version, "version"),
];

const RC_FAULTS: [(RcFault, &str); 8] = [
    (RcFault::BadLine(1), "rcfile line 1: not option=value"),
    (
        RcFault::NotSupported(20),
        "rcfile line 20: option not supported",
    ),
    (
        RcFault::Wildcard(3),
        "rcfile line 3: wildcard not supported",
    ),
    (
        RcFault::Expansion(4),
        "rcfile line 4: expansion not supported",
    ),
    (RcFault::BadFormat(5), "rcfile line 5: unknown format"),
    (RcFault::Missing(Name::Mbox), "rcfile: mbox missing"),
    (RcFault::Missing(Name::Database), "rcfile: database missing"),
    (RcFault::Missing(Name::Mfolder), "rcfile: mfolder missing"),
];

#[test]
fn faults_show_their_text(rt: HostRuntime) {
    for (fault, text) in USAGE_FAULTS {
        assert!(rt; has_text(fault, text), "{text}");
    }
    for (fault, text) in RC_FAULTS {
        assert!(rt; has_text(fault, text), "{text}");
    }
}
