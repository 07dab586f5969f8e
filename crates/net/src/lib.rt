// Ports, descriptors and interface ids are types of their own (000, 2.1). An address is a u32, the first of its four numbers highest.
#![tactic(auto)]

ghost use Rattle.std.specs.Prelude.{◌≡◌};
ghost use Rattle.net.specs.Address.{no_flow, loopback, martian, stray, agree};

#[repr(C)]
#[derive(Clone, Copy, PartialEq, Eq, PartialOrd, Default)]
pub struct Port(pub u16);

#[repr(C)]
#[derive(Clone, Copy, PartialEq, Eq, Default)]
pub struct Descriptor(pub u8);

// The place that a descriptor names.
impl From<Descriptor> for usize {
    ghost from_gives = { λ d n. n ≡ d.0 };

    fn from(d: Descriptor) -> usize {
        d.0 as usize
    }
}

#[repr(C)]
#[derive(Clone, Copy, PartialEq, Eq, Default)]
pub struct InterfaceId(pub u8);

// Where a datagram comes from and where it goes.
#[repr(C)]
#[derive(Clone, Copy, PartialEq, Eq, Default)]
pub struct Flow {
    pub src: u32,
    pub dst: u32,
    pub sport: Port,
    pub dport: Port,
}

// The flow of nothing.
pub fn no_flow() -> Flow
    ensures { result ≡ no_flow }
{
    Flow::default()
}

pub fn is_loopback(a: u32) -> bool
    ensures { result ≡ loopback a }
{
    a / 16777216 == 127
}

pub fn is_martian(a: u32) -> bool
    ensures { result ≡ martian a }
{
    a / 16777216 == 0 || 224 <= a / 16777216
}

// No source of a datagram from outside: martian or loopback.
pub fn is_stray(a: u32) -> bool
    ensures { result ≡ stray a }
{
    is_martian(a) || is_loopback(a)
}

// The two addresses are equal under the mask.
pub fn is_agreed(a: u32, b: u32, mask: u32) -> bool
    ensures { result ≡ agree a b mask }
{
    (a & mask) == (b & mask)
}
