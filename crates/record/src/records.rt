// Records as a reader lends them: numbers, and the other parts as bytes of the input.
#[derive(Clone, Copy)]
pub enum Record<'a> {
    Leaf {
        digest: &'a [u8],
    },
    Head {
        size: u32,
        root: &'a [u8],
    },
    Proof(Proof<'a>),
    Link(Link<'a>),
    Entry(&'a [u8]),
    Collision {
        first: InputBytes<'a>,
        second: InputBytes<'a>,
    },
}

// That a leaf stands at an index among so many; the path is its digests, one after the other.
#[derive(Clone, Copy)]
pub struct Proof<'a> {
    pub index: u32,
    pub size: u32,
    pub path: &'a [u8],
}

// That a log of one size grew to another; the digests stand one after the other.
#[derive(Clone, Copy)]
pub struct Link<'a> {
    pub old: u32,
    pub new: u32,
    pub digests: &'a [u8],
}

// One input of the compression: a chaining value and a block.
#[derive(Clone, Copy)]
pub struct InputBytes<'a> {
    pub h: &'a [u8],
    pub m: &'a [u8],
}
