ghost use Rattle.std.specs.Prelude.{◌≡◌, Some, None, IfSome};
ghost use Rattle.bar_wire.specs.Kinds.{code_of, kind_at, is_signed_kind};

/// The kinds of datagrams.
#[derive(Clone, Copy, Debug, PartialEq, Eq)]
pub enum Kind {
    Manifest,
    Block,
    Request,
    Response,
    Divulge,
    Query,
    Reply,
    Case,
    KeyReq,
    Key,
    Evidence,
    Evict,
}

impl Kind {
    /// Whether datagrams of this kind have a signature.
    pub fn is_signed(self) -> bool
        ensures { result ≡ is_signed_kind self }
    {
        match self {
            Kind::Manifest
            | Kind::Request
            | Kind::Response
            | Kind::Query
            | Kind::Reply
            | Kind::Case
            | Kind::Key
            | Kind::Evict => true,
            Kind::Block | Kind::Divulge | Kind::KeyReq | Kind::Evidence => false,
        }
    }

    /// The code of the kind, 1 to 12.
    pub fn code(self) -> u8
        ensures { result ≡ code_of self }
    {
        match self {
            Kind::Manifest => 1,
            Kind::Block => 2,
            Kind::Request => 3,
            Kind::Response => 4,
            Kind::Divulge => 5,
            Kind::Query => 6,
            Kind::Reply => 7,
            Kind::Case => 8,
            Kind::KeyReq => 9,
            Kind::Key => 10,
            Kind::Evidence => 11,
            Kind::Evict => 12,
        }
    }

    /// The kind with this code, or None if there is none.
    pub fn at(code: u8) -> Option<Kind>
        ensures kind { result ≡ kind_at code }
        ensures code { IfSome result (λ kind. code ≡ code_of kind) }
    {
        match code {
            1 => Some(Kind::Manifest),
            2 => Some(Kind::Block),
            3 => Some(Kind::Request),
            4 => Some(Kind::Response),
            5 => Some(Kind::Divulge),
            6 => Some(Kind::Query),
            7 => Some(Kind::Reply),
            8 => Some(Kind::Case),
            9 => Some(Kind::KeyReq),
            10 => Some(Kind::Key),
            11 => Some(Kind::Evidence),
            12 => Some(Kind::Evict),
            _ => None,
        }
    }
}
