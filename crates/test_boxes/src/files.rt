use box_conf::{BoxKind, read_box};

/// A box file: its text, its threads and its seed, the numbers that are set of its box, and its backends.
struct Read {
    text: &'static str,
    threads: u32,
    seed: u64,
    settings: [u64; 6],
    backends: &'static [(u32, u16)],
}

/// The numbers that are set of a box.
fn settings_of(kind: &BoxKind) -> [u64; 6] {
    match kind {
        BoxKind::Count(_) => [0; 6],
        BoxKind::Monitor(monitor) => [u64::from(monitor.program.shards), 0, 0, 0, 0, 0],
        BoxKind::Nat(nat) => [
            u64::from(nat.program.settings.shards),
            u64::from(nat.program.settings.inside),
            u64::from(nat.program.settings.length),
            u64::from(nat.program.settings.outside),
            u64::from(nat.program.settings.low),
            u64::from(nat.program.settings.high),
        ],
        BoxKind::Balancer(balancer) => [
            u64::from(balancer.program.settings.shards),
            u64::from(balancer.program.settings.address),
            u64::from(balancer.program.settings.port),
            0,
            0,
            0,
        ],
    }
}

/// Whether a box has these backends, each with its address and its port.
fn has_backends(kind: &BoxKind, wanted: &[(u32, u16)]) -> bool {
    let BoxKind::Balancer(balancer) = kind else {
        return wanted.is_empty();
    };
    let backends = balancer.program.settings.backends.as_slice();
    for (backend, (address, port)) in backends.iter().zip(wanted) {
        if backend.address != *address || backend.port != *port {
            return false;
        }
    }
    backends.len() == wanted.len()
}

fn is_read(wanted: &Read) -> bool {
    match read_box(wanted.text.as_bytes()) {
        Ok(conf) => (conf.threads, conf.seed) == (wanted.threads, wanted.seed)
            && settings_of(&conf.kind) == wanted.settings
            && has_backends(&conf.kind, wanted.backends),
        Err(_) => false,
    }
}

const READ: [Read; 13] = [
    Read {
        text: "box count",
        threads: 1,
        seed: 0,
        settings: [0, 0, 0, 0, 0, 0],
        backends: &[],
    },
    Read {
        text: "box count\nthreads 16\n",
        threads: 16,
        seed: 0,
        settings: [0, 0, 0, 0, 0, 0],
        backends: &[],
    },
    Read {
        text: "#\n\n\tbox  count\r\nseed\t007\r\n # x\nthreads 0002",
        threads: 2,
        seed: 7,
        settings: [0, 0, 0, 0, 0, 0],
        backends: &[],
    },
    Read {
        text: "box count\nseed 18446744073709551615",
        threads: 1,
        seed: u64::MAX,
        settings: [0, 0, 0, 0, 0, 0],
        backends: &[],
    },
    Read {
        text: "box count\nseed 00000000000000000009\nthreads 1",
        threads: 1,
        seed: 9,
        settings: [0, 0, 0, 0, 0, 0],
        backends: &[],
    },
    Read {
        text: "box monitor",
        threads: 1,
        seed: 0,
        settings: [16, 0, 0, 0, 0, 0],
        backends: &[],
    },
    Read {
        text: "box monitor\nshards 64\nthreads 3",
        threads: 3,
        seed: 0,
        settings: [64, 0, 0, 0, 0, 0],
        backends: &[],
    },
    Read {
        text: "box monitor\nseed 5\nshards 01",
        threads: 1,
        seed: 5,
        settings: [1, 0, 0, 0, 0, 0],
        backends: &[],
    },
    Read {
        text: "box nat\ninside 10.0.0.0 8\noutside 203.0.113.1",
        threads: 1,
        seed: 0,
        settings: [16, 167772160, 8, 3405803777, 1024, 65535],
        backends: &[],
    },
    Read {
        text: "box nat\nports 1 65535\noutside 0.0.0.0\nseed 42\n\nshards 64\n#\ninside 255.255.255.255 32\nthreads 16",
        threads: 16,
        seed: 42,
        settings: [64, 4294967295, 32, 0, 1, 65535],
        backends: &[],
    },
    Read {
        text: "box nat\nports 39276 39276\noutside 203.00.0113.1\ninside 10.0.0.5 1",
        threads: 1,
        seed: 0,
        settings: [16, 167772165, 1, 3405803777, 39276, 39276],
        backends: &[],
    },
    Read {
        text: "box balancer\nvirtual 198.51.100.7 53\nbackend 10.1.0.1 53",
        threads: 1,
        seed: 0,
        settings: [16, 3325256711, 53, 0, 0, 0],
        backends: &[(167837697, 53)],
    },
    Read {
        text: "box balancer\nbackend 0.0.0.0 0\nthreads 4\nbackend 10.1.0.1 0053\nshards 1\nvirtual 0.0.0.0 65535\nseed 5\nbackend 10.1.0.1 54",
        threads: 4,
        seed: 5,
        settings: [1, 0, 65535, 0, 0, 0],
        backends: &[(0, 0), (167837697, 53), (167837697, 54)],
    },
];

#[test]
fn reads_box_files(rt: HostRuntime) {
    for wanted in &READ {
        assert!(rt; is_read(wanted), "at {:?}", wanted.text);
    }
}
