/// The attribute that holds a file's label (the kernel's `XATTR_NAME_IMA`).
pub const IMA_NAME: &[u8] = b"security.ima";

/// The attribute that holds EVM's HMAC (the kernel's `XATTR_NAME_EVM`).
pub const EVM_NAME: &[u8] = b"security.evm";
