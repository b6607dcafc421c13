//! Bytes that are borrowed or owned.

ghost use Rattle.std.specs.Prelude.{◌≡◌, true, false, IfOk, IfErr, IsOk};
ghost use Rattle.std.specs.Box.{boxed_slice_items};
ghost use Rattle.std.specs.Fmt.{DisplaysOnOk, debug_variant};
ghost use Rattle.stun_base.specs.Data.{slice_bytes, owned_bytes, data_bytes, is_borrowed, slice_text, owned_text};

use std::alloc::Global;
use std::boxed::BoxedSlice;
use std::fmt;
use stun_grammar::StunWriteError;

/// Writes a name, and a value in parentheses after it, as a derived `Debug` does.
fn write_variant<T: fmt::Debug, W: fmt::Write>(
    f: &mut fmt::Formatter<W>,
    name: &str,
    value: &T,
) -> fmt::Result
    ensures { DisplaysOnOk W.write_str_gives f.old result
        (debug_variant name.now (T.debug_output value.now)) f.new }
{
    if f.alternate() {
        return f.debug_tuple(name).field(value).finish();
    }
    write!(f, "{name}({value:?})")
}

/// Bytes that are borrowed.
///
/// `{:?}` prints the bytes in decimal: `DataSlice([4, 0])`.
#[derive(Clone, Copy, PartialEq, Eq)]
pub struct DataSlice<'a> {
    bytes: &'a [u8],
}

impl<'a> DataSlice<'a> {
    /// The bytes that the value borrows.
    pub fn as_bytes(&self) -> &[u8]
        ensures { result.now ≡ slice_bytes self.now }
    {
        self.take()
    }

    /// Returns the bytes, for as long as they are borrowed.
    ///
    /// # Examples
    ///
    /// ```
    /// use stun_types::data::DataSlice;
    ///
    /// let bytes = [4, 0];
    /// let taken = DataSlice::from(bytes.as_slice()).take();
    /// assert_eq!(rt; taken, bytes.as_slice());
    /// ```
    pub fn take(self) -> &'a [u8]
        ensures { result.now ≡ slice_bytes self.entry }
    {
        self.bytes
    }

    /// Copies the bytes into memory that `alloc` gives.
    ///
    /// # Errors
    ///
    /// `OutOfMemory` alone.
    ///
    /// # Examples
    ///
    /// ```
    /// use stun_types::data::DataSlice;
    ///
    /// let owned = DataSlice::from([4, 0].as_slice()).to_owned(alloc)?;
    /// assert_eq!(rt; owned.as_bytes(), [4, 0].as_slice());
    /// ```
    pub fn to_owned(&self, alloc: Global) -> Result<DataOwned, StunWriteError>
        ensures bytes { IfOk result (λ copy. owned_bytes copy ≡ slice_bytes self.now) }
        ensures err { IfErr result (λ e. e ≡ StunWriteError.OutOfMemory) }
    {
        let bytes = BoxedSlice::from_slice(alloc, self.bytes)?;
        Ok(DataOwned { bytes })
    }
}

impl<'a> From<&'a [u8]> for DataSlice<'a> {
    ghost from_gives = { λ bytes made. slice_bytes made ≡ bytes.now };

    fn from(bytes: &'a [u8]) -> Self {
        DataSlice { bytes }
    }
}

impl<'a> From<DataSlice<'a>> for &'a [u8] {
    ghost from_gives = { λ slice bytes. bytes.now ≡ slice_bytes slice };

    fn from(slice: DataSlice<'a>) -> &'a [u8] {
        slice.take()
    }
}

impl fmt::Debug for DataSlice<'_> {
    ghost debug_output = { λ slice. slice_text (slice_bytes slice) };

    fn fmt<W: fmt::Write>(&self, f: &mut fmt::Formatter<W>) -> fmt::Result {
        write_variant(f, "DataSlice", &self.bytes)
    }
}

/// Bytes that the value owns.
///
/// `{:?}` prints the bytes in decimal: `DataOwned([4, 0])`.
#[derive(PartialEq, Eq, Drop)]
pub struct DataOwned {
    bytes: BoxedSlice<u8>,
}

impl DataOwned {
    /// The bytes that the value owns.
    pub fn as_bytes(&self) -> &[u8]
        ensures { result.now ≡ owned_bytes self.now }
    {
        &self.bytes
    }

    /// Returns the box that holds the bytes.
    pub fn take(self) -> BoxedSlice<u8>
        ensures { boxed_slice_items result ≡ owned_bytes self }
    {
        let DataOwned { bytes } = self;
        bytes
    }

    /// Copies the bytes into memory that `alloc` gives.
    ///
    /// # Errors
    ///
    /// `OutOfMemory` alone.
    pub fn clone(&self, alloc: Global) -> Result<Self, StunWriteError>
        ensures bytes { IfOk result (λ copy. owned_bytes copy ≡ owned_bytes self.now) }
        ensures err { IfErr result (λ e. e ≡ StunWriteError.OutOfMemory) }
    {
        DataSlice::from(self.as_bytes()).to_owned(alloc)
    }
}

impl From<BoxedSlice<u8>> for DataOwned {
    ghost from_gives = { λ bytes made. owned_bytes made ≡ boxed_slice_items bytes };

    fn from(bytes: BoxedSlice<u8>) -> Self {
        DataOwned { bytes }
    }
}

impl From<DataOwned> for BoxedSlice<u8> {
    ghost from_gives = { λ owned bytes. boxed_slice_items bytes ≡ owned_bytes owned };

    fn from(owned: DataOwned) -> BoxedSlice<u8> {
        owned.take()
    }
}

impl fmt::Debug for DataOwned {
    ghost debug_output = { λ owned. owned_text (owned_bytes owned) };

    fn fmt<W: fmt::Write>(&self, f: &mut fmt::Formatter<W>) -> fmt::Result {
        write_variant(f, "DataOwned", &self.as_bytes())
    }
}

/// Bytes that are borrowed or owned.
///
/// `{:?}` prints which they are, and the bytes in decimal: `Borrowed(DataSlice([4, 0]))`,
/// `Owned(DataOwned([4, 0]))`.
///
/// Two values are equal if both are borrowed or both are owned, and their bytes are equal.
///
/// # Examples
///
/// ```
/// use stun_types::data::Data;
///
/// let borrowed = Data::from([4, 0].as_slice());
/// assert_eq!(rt; borrowed.as_bytes(), [4, 0].as_slice());
/// let owned = borrowed.into_owned(alloc)?;
/// assert_eq!(rt; owned.as_bytes(), [4, 0].as_slice());
/// let text = format!(in alloc; "{owned:?}")?;
/// assert_eq!(rt; text.as_str(), "Owned(DataOwned([4, 0]))");
/// ```
#[derive(PartialEq, Eq, Drop)]
pub enum Data<'a> {
    /// Bytes that are borrowed for `'a`.
    Borrowed(DataSlice<'a>),
    /// Bytes that the value owns.
    Owned(DataOwned),
}

impl<'a> Data<'a> {
    /// The bytes, whether they are borrowed or owned.
    pub fn as_bytes(&self) -> &[u8]
        ensures { result.now ≡ data_bytes self.now }
    {
        match self {
            Data::Borrowed(slice) => slice.as_bytes(),
            Data::Owned(owned) => owned.as_bytes(),
        }
    }

    /// Converts the bytes into owned ones. Borrowed bytes are copied into memory that `alloc`
    /// gives; owned bytes are kept, which takes no memory.
    ///
    /// # Errors
    ///
    /// `OutOfMemory` alone, and only for borrowed bytes.
    pub fn into_owned(self, alloc: Global) -> Result<Data<'static>, StunWriteError>
        ensures bytes { IfOk result (λ owned. data_bytes owned ≡ data_bytes self.entry) }
        ensures owned { IfOk result (λ owned. is_borrowed owned ≡ false) }
        ensures err { IfErr result (λ e. e ≡ StunWriteError.OutOfMemory) }
        ensures free { is_borrowed self.entry ≡ false → IsOk result }
    {
        match self {
            Data::Borrowed(slice) => Ok(Data::Owned(slice.to_owned(alloc)?)),
            Data::Owned(owned) => Ok(Data::Owned(owned)),
        }
    }

    /// Clones the borrowed or owned bytes. Borrowed bytes stay borrowed, which takes no memory;
    /// owned bytes are copied into memory that `alloc` gives.
    ///
    /// # Errors
    ///
    /// `OutOfMemory` alone, and only for owned bytes.
    pub fn clone(&self, alloc: Global) -> Result<Data<'a>, StunWriteError>
        ensures bytes { IfOk result (λ copy. data_bytes copy ≡ data_bytes self.now) }
        ensures borrowed { IfOk result (λ copy. is_borrowed copy ≡ is_borrowed self.now) }
        ensures err { IfErr result (λ e. e ≡ StunWriteError.OutOfMemory) }
        ensures free { is_borrowed self.now ≡ true → IsOk result }
    {
        match self {
            Data::Borrowed(slice) => Ok(Data::Borrowed(*slice)),
            Data::Owned(owned) => Ok(Data::Owned(owned.clone(alloc)?)),
        }
    }
}

impl<'a> From<&'a [u8]> for Data<'a> {
    ghost use Rattle.std.specs.Prelude.{true};
    ghost use Rattle.stun_base.specs.Data.{is_borrowed};

    ghost from_gives = { λ bytes made. (data_bytes made ≡ bytes.now) × (is_borrowed made ≡ true) };

    fn from(bytes: &'a [u8]) -> Self {
        Data::Borrowed(DataSlice::from(bytes))
    }
}

impl<'a> From<BoxedSlice<u8>> for Data<'a> {
    ghost use Rattle.std.specs.Prelude.{false};
    ghost use Rattle.stun_base.specs.Data.{is_borrowed};

    ghost from_gives = { λ bytes made.
        (data_bytes made ≡ boxed_slice_items bytes) × (is_borrowed made ≡ false) };

    fn from(bytes: BoxedSlice<u8>) -> Self {
        Data::Owned(DataOwned::from(bytes))
    }
}

impl fmt::Debug for Data<'_> {
    ghost use Rattle.stun_base.specs.Data.{is_borrowed, data_text};

    ghost debug_output = { λ value. data_text (is_borrowed value) (data_bytes value) };

    fn fmt<W: fmt::Write>(&self, f: &mut fmt::Formatter<W>) -> fmt::Result {
        match self {
            Data::Borrowed(slice) => write_variant(f, "Borrowed", slice),
            Data::Owned(owned) => write_variant(f, "Owned", owned),
        }
    }
}
