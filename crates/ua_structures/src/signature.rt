//! Signatures and signed certificates.

ghost use Rattle.std.specs.Prelude.{◌≡◌};
ghost use Rattle.ua_structures.specs.Plain.{null_signature};

use ua_builtin::{UaBytes, UaString};

/// A software certificate and its signature (OPC 10000-4, 7.38).
#[derive(Debug, Drop)]
pub struct SignedSoftwareCertificate {
    pub certificate_data: UaBytes,
    pub signature: UaBytes,
}

/// A signature and the algorithm that made it (OPC 10000-4, 7.37).
#[derive(Debug, Drop)]
pub struct SignatureData {
    pub algorithm: UaString,
    pub signature: UaBytes,
}

impl SignatureData {
    /// The null signature: neither an algorithm nor bytes.
    pub fn null() -> SignatureData
        ensures { result ≡ null_signature }
    {
        SignatureData {
            algorithm: UaString::null(),
            signature: UaBytes::null(),
        }
    }
}
