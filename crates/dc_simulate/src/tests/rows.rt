//! Summaries that were reckoned by another program.

/// The number that the world is made from, how many events it gives, and what is told of them.
#[derive(Clone, Copy)]
pub(crate) struct Row {
    pub(crate) seed: u64,
    pub(crate) events: u64,
    pub(crate) told: &'static str,
}

/// The rows, the shortest first.
pub(crate) const ROWS: &[Row] = &[
    Row {
        seed: 1,
        events: 0,
        told: "events 0\naccepted 0\nsent 0\ndropped 0\nactive 0\nmotion 0\n",
    },
    Row {
        seed: 1,
        events: 1,
        told: "events 1\naccepted 1\nsent 0\ndropped 0\nactive 1\nmotion 0\n",
    },
    Row {
        seed: 1,
        events: 4,
        told: "events 4\naccepted 1\nsent 1\ndropped 0\nactive 0\nmotion 181\n",
    },
    Row {
        seed: 0,
        events: 10,
        told: "events 10\naccepted 3\nsent 2\ndropped 0\nactive 1\nmotion 431\n",
    },
    Row {
        seed: 1,
        events: 100,
        told: "events 100\naccepted 25\nsent 20\ndropped 0\nactive 5\nmotion 3693\n",
    },
    Row {
        seed: 2,
        events: 1000,
        told: "events 1000\naccepted 312\nsent 311\ndropped 0\nactive 1\nmotion 29354\n",
    },
    Row {
        seed: 3,
        events: 5000,
        told: "events 5000\naccepted 2257\nsent 2257\ndropped 0\nactive 0\nmotion 94349\n",
    },
    Row {
        seed: 9223372036854775808,
        events: 777,
        told: "events 777\naccepted 227\nsent 225\ndropped 0\nactive 2\nmotion 24182\n",
    },
    Row {
        seed: 18446744073709551615,
        events: 5000,
        told: "events 5000\naccepted 2217\nsent 2217\ndropped 0\nactive 0\nmotion 95042\n",
    },
    Row {
        seed: 12345,
        events: 20000,
        told: "events 20000\naccepted 10614\nsent 10613\ndropped 0\nactive 1\nmotion 291560\n",
    },
    Row {
        seed: 7,
        events: 50000,
        told: "events 50000\naccepted 27748\nsent 27747\ndropped 0\nactive 1\nmotion 675849\n",
    },
];
