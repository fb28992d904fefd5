// Worked markets, as their files.
use super::{CANDIDATES, ONE_RANK, PLACED, PROGRAMMES, RANKS, TWENTY_FIVE_PROGRAMMES};

// The files of three rounds: one cut leads to the next.
pub(super) const CHAIN_PROGRAMMES: &[u8] = b"programme,type,quota\n11,A,1\n12,A,1\n21,B,1\n";

pub(super) const CHAIN_CANDIDATES: &[u8] = b"candidate,list\n1,11;21\n2,21;11;12\n3,12\n";

pub(super) const CHAIN_RANKS: &[u8] =
    b"candidate,type,rank\n1,A,1\n2,A,2\n3,A,3\n1,B,1\n2,B,2\n3,B,3\n";

pub(super) const CHAIN_PLACED: &[u8] = b"candidate,programme\n1,11\n2,21\n3,12\n";

pub(super) const CHAIN_BASE: &[u8] = b"programme,quota,held,base\n11,1,1,1\n12,1,1,3\n21,1,1,2\n";

pub(super) const CHAIN_REASONS: &[u8] =
    b"candidate,programme,reason,base\n1,11,PLACED,-\n1,21,BELOW,-\n2,21,PLACED,-\n\
    2,11,BELOW,-\n2,12,BELOW,-\n3,12,PLACED,-\n";

// A market as its three files, what `place` prints of it, and how many rounds, cuts and turns it
// takes.
#[derive(Clone, Copy)]
pub(super) struct Worked {
    pub(super) programmes: &'static [u8],
    pub(super) candidates: &'static [u8],
    pub(super) ranks: &'static [u8],
    pub(super) placed: &'static [u8],
    pub(super) counts: (u32, u32, u64),
}

// The place of the market of five score types among them.
pub(super) const FIVE_TYPES: usize = 11;

pub(super) const MARKETS: [Worked; 14] = [
    // An exchange: both candidates want the other's programme, and hold the one in which their rank
    // is better.
    Worked {
        programmes: PROGRAMMES,
        candidates: b"candidate,list\n1,101;201\n2,201;101\n",
        ranks: b"candidate,type,rank\n2,SAY,1\n1,SAY,2\n1,EA,1\n2,EA,2\n",
        placed: b"candidate,programme\n1,201\n2,101\n",
        counts: (1, 0, 4),
    },
    Worked {
        programmes: PROGRAMMES,
        candidates: CANDIDATES,
        ranks: RANKS,
        placed: PLACED,
        counts: (2, 1, 6),
    },
    // Three rounds.
    Worked {
        programmes: CHAIN_PROGRAMMES,
        candidates: CHAIN_CANDIDATES,
        ranks: CHAIN_RANKS,
        placed: CHAIN_PLACED,
        counts: (3, 2, 11),
    },
    // Headers alone.
    Worked {
        programmes: b"programme,type,quota\n",
        candidates: b"candidate,list\n",
        ranks: b"candidate,type,rank\n",
        placed: b"candidate,programme\n",
        counts: (1, 0, 0),
    },
    // No seat.
    Worked {
        programmes: b"programme,type,quota\n101,SAY,0\n",
        candidates: b"candidate,list\n1,101\n",
        ranks: b"candidate,type,rank\n1,SAY,1\n",
        placed: b"candidate,programme\n1,-\n",
        counts: (1, 0, 1),
    },
    // No rank at all.
    Worked {
        programmes: b"programme,type,quota\n101,SAY,1\n",
        candidates: b"candidate,list\n1,101\n",
        ranks: b"candidate,type,rank\n",
        placed: b"candidate,programme\n1,-\n",
        counts: (1, 0, 0),
    },
    // The same, and a candidate with an empty list.
    Worked {
        programmes: b"programme,type,quota\n101,SAY,1\n",
        candidates: b"candidate,list\n1,101\n2,\n",
        ranks: b"candidate,type,rank\n",
        placed: b"candidate,programme\n1,-\n2,-\n",
        counts: (1, 0, 0),
    },
    // Ranks of an unknown candidate and in an unknown type.
    Worked {
        programmes: PROGRAMMES,
        candidates: CANDIDATES,
        ranks: b"candidate,type,rank\n1,SAY,1\n2,SAY,2\n1,EA,1\n2,EA,2\n99,SAY,7\n1,TYT,1\n",
        placed: PLACED,
        counts: (2, 1, 6),
    },
    // A list of 24 entries.
    Worked {
        programmes: TWENTY_FIVE_PROGRAMMES,
        candidates: b"candidate,list\n1,1;2;3;4;5;6;7;8;9;10;11;12;13;14;15;16;17;18;19;20;21;22;23;24\n",
        ranks: ONE_RANK,
        placed: b"candidate,programme\n1,1\n",
        counts: (1, 0, 1),
    },
    // A byte order mark, lines that end in CR LF, an empty line, no last LF.
    Worked {
        programmes: b"\xef\xbb\xbfprogramme,type,quota\r\n\r\n101,SAY,1\r\n201,EA,1",
        candidates: CANDIDATES,
        ranks: RANKS,
        placed: PLACED,
        counts: (2, 1, 6),
    },
    // The limits of numbers and of a type name, and leading zeros.
    Worked {
        programmes: b"programme,type,quota\n999999999,ABCDEFG8,100000\n7,EA,007\n",
        candidates: b"candidate,list\n99999999999,0007;0999999999\n",
        ranks: b"candidate,type,rank\n99999999999,ABCDEFG8,99999999\n",
        placed: b"candidate,programme\n99999999999,999999999\n",
        counts: (1, 0, 1),
    },
    // Five score types.
    Worked {
        programmes: b"programme,type,quota\n102210277,SAY,2\n103910169,EA,1\n105510032,SOZ,1\n106510077,DIL,1\n\
            202110455,TYT,1\n",
        candidates: b"candidate,list\n10000000146,102210277;103910169\n\
            10000000238,103910169;105510032;202110455\n10000000320,102210277;202110455\n\
            10000000412,106510077\n",
        ranks: b"candidate,type,rank\n10000000146,SAY,1204\n10000000146,EA,3310\n10000000146,TYT,2050\n\
            10000000238,EA,5121\n10000000238,SOZ,877\n10000000238,TYT,40211\n10000000320,SAY,98004\n\
            10000000320,TYT,61200\n10000000412,TYT,15000\n10000000412,DIL,412\n",
        placed: b"candidate,programme\n10000000146,102210277\n10000000238,103910169\n\
            10000000320,102210277\n10000000412,106510077\n",
        counts: (3, 4, 16),
    },
    // A quota with leading zeros.
    Worked {
        programmes: b"programme,type,quota\n101,SAY,007\n201,EA,1\n",
        candidates: CANDIDATES,
        ranks: RANKS,
        placed: PLACED,
        counts: (2, 1, 6),
    },
    // The ranks end before their last row.
    Worked {
        programmes: PROGRAMMES,
        candidates: CANDIDATES,
        ranks: b"candidate,type,rank\n1,SAY,1\n2,SAY,2\n1,EA,1\n",
        placed: b"candidate,programme\n1,101\n2,-\n",
        counts: (2, 1, 4),
    },
];
