// A cookie secret: 16 bytes, held as the two words that SipHash takes of them. So two secrets are compared by two
// comparisons, and one goes in two registers, where an array goes through memory.
#![tactic(auto, using(crate::proofs::SecretLaws::bytes_are), unfolding(crate::specs::Secret::secret_of, crate::specs::Secret::same_secret))]

ghost use Rattle.std.specs.Prelude.{◌≡◌};
ghost use Rattle.secret.specs.Secret.{secret_of, secret_bytes, same_secret};
ghost use Rattle.secret.specs.Secrets.{generating_of};

#[derive(Clone, Copy, PartialEq, Eq)]
pub struct Secret {
    pub k0: u64,
    pub k1: u64,
}

impl Secret {
    // The secret that 16 bytes are, and the 16 bytes of a secret: methods and no `From`, by the names that the pages use.
    pub fn read(bytes: &[u8; 16]) -> Secret
        ensures { result ≡ secret_of bytes.now }
    {
        Secret {
            k0: octets::word_at(bytes, 0),
            k1: octets::word_at(bytes, 8),
        }
    }

    pub fn bytes(self) -> [u8; 16]
        ensures { result ≡ secret_bytes self }
    {
        let mut bytes = [0u8; 16];
        bytes[..8].copy_from_slice(&octets::le64_bytes(self.k0));
        bytes[8..].copy_from_slice(&octets::le64_bytes(self.k1));
        bytes
    }

    // Whether two secrets are the same: `==`, promised in the words of `same_secret`.
    pub fn same(self, other: Secret) -> bool
        ensures { result ≡ same_secret self other }
    {
        self == other
    }
}

// The secrets that a member holds: the one that it makes cookies with and accepts, and perhaps one other that it only accepts. Where
// none other is held, none is there to be tried by mistake.
#[derive(Clone, Copy, PartialEq, Eq)]
pub enum Secrets {
    One(Secret),
    Two { generating: Secret, other: Secret },
}

impl Secrets {
    // The secret that cookies are made with.
    pub fn generating(self) -> Secret
        ensures { result ≡ generating_of self }
    {
        match self {
            Secrets::One(secret) => secret,
            Secrets::Two { generating, .. } => generating,
        }
    }
}
