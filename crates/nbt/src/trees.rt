use rp_text::Raw;

/// The elements of an array of 32-bit numbers.
#[derive(Drop)]
pub struct IntList {
    pub items: Vec<i32>,
}

/// The elements of an array of 64-bit numbers.
#[derive(Drop)]
pub struct LongList {
    pub items: Vec<i64>,
}

/// The items of a list, in order.
pub type Trees = Vec<Tree>;

/// The fields of a compound, in order. A name may stand more than once.
pub type Fields = Vec<Field>;

/// A value of the NBT format. Its type byte is given for each.
#[derive(Drop)]
#[cycle(tree)]
pub enum Tree {
    /// 1
    Byte(i8),
    /// 2
    Short(i16),
    /// 3
    Int(i32),
    /// 4
    Long(i64),
    /// 5, kept as its bytes
    Float([u8; 4]),
    /// 6, kept as its bytes
    Double([u8; 8]),
    /// 7, at most 2,147,483,647 bytes
    Bytes(Raw),
    /// 8, at most 65,535 bytes of any kind
    Text(Raw),
    /// 11
    Ints(IntList),
    /// 12
    Longs(LongList),
    /// 9, a list of type End, whose length is 0 or less
    EmptyList { length: i32 },
    /// 9, a list of element type 1 to 6; `raw` has the bytes of its numbers
    Numbers { element: u8, raw: Raw },
    /// 9, a list of element type 7 to 12, which all of its items have
    List { element: u8, items: Trees },
    /// 10
    Compound(Fields),
}

/// A named value. The name has at most 65,535 bytes of any kind.
#[derive(Drop)]
#[cycle(tree)]
pub struct Field {
    pub name: Raw,
    pub tree: Tree,
}

/// A whole file: a compound with a name. It has depth 1, and a compound or a list directly inside
/// another one has one depth more, up to 512.
#[derive(Drop)]
pub struct Root {
    pub name: Raw,
    pub fields: Fields,
}
