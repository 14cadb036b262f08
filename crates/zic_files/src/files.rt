//! Files by number and by name.

ghost use Rattle.std.specs.Prelude.{◌≡◌, ◌≢◌, ◌<◌, true, [], ◌∷◌, ◌++◌, length, slice_get, All, IfSome, IfNone, IfOk, IfErr, IsSomeAnd};
ghost use Rattle.zic_lines.specs.Name.{is_name};
ghost use Rattle.zic_tzif.specs.Reading.{IsFile};
ghost use Rattle.zic_files.specs.Fit.{IsFit};
ghost use Rattle.zic_files.specs.Sound.{IsAlwaysKnown, IsSoundFile, AreSoundFiles};

use crate::image::Image;
use crate::images::Images;
use crate::name_index::NameIndex;
use crate::names::Entry;
use std::alloc::{AllocError, Global};
use std::marker::Model;
use zic_lines::Name;
use zic_tzif::Zone;
use zic_tzif::laws::{footers_leave_nothing_open, states_have_numbers};

/// Files by name, as those of all Zone and Link lines, in the order of the texts and their lines.
/// A link shares the image of its zone. The names of files differ.
#[derive(Debug, Drop)]
pub struct Files {
    images: Images,
    entries: Vec<Entry>,
    names: NameIndex,
}

impl Model for Files {
    ghost use Rattle.std.specs.Prelude.{List, map};
    ghost use Rattle.zic_files.specs.File.{File, file_of};
    ghost use Rattle.zic_files.specs.code.Entries.{AreEntries};

    ghost Value = { List File };

    ghost view = { λ f. map (file_of f.images) f.entries.items };

    ghost invariant = { λ f. AreEntries f.images f.entries.items f.names };
}

impl Files {
    ghost use Rattle.std.specs.Prelude.{map};
    ghost use Rattle.zic_files.specs.File.{file_of};

    /// Returns no files, which are looked up by this key.
    pub(crate) fn none(alloc: Global, key: u64) -> Files
        ensures { result ≡ [] }
    {
        Files {
            images: Images::of(alloc, Vec::new(alloc)),
            entries: Vec::new(alloc),
            names: NameIndex::new(alloc, key),
        }
    }

    /// Returns the files of these entries, each with the image of its zone. They are looked up by the
    /// key 0, until [`with_key`](Files::with_key) gives another.
    pub fn new(alloc: Global, images: Vec<Image>, entries: Vec<Entry>) -> Result<Files, AllocError>
        requires images { All (λ entry. entry.zone < length images.items) entries.items }
        requires sound { AreSoundFiles (map (file_of images.items) entries.items) }
        ensures ok { IfOk result (λ files. files ≡ map (file_of images.items) entries.items) }
        ensures memory { IfErr result (λ _. 0 < length entries.items) }
    {
        let names = NameIndex::of(alloc, 0, &entries)?;
        Ok(Files {
            images: Images::of(alloc, images),
            entries,
            names,
        })
    }

    /// Returns the same files, to be looked up by this key. The key changes no answer. A random one
    /// keeps names that were chosen to share a bucket from being slow to find.
    ///
    /// # Errors
    ///
    /// Fails if memory is refused. The files are dropped then.
    pub fn with_key(self, alloc: Global, key: u64) -> Result<Files, AllocError>
        ensures ok { IfOk result (λ files. files ≡ self) }
        ensures memory { IfErr result (λ _. 0 < length self) }
    {
        let names = NameIndex::of(alloc, key, &self.entries)?;
        Ok(Files {
            images: self.images,
            entries: self.entries,
            names,
        })
    }

    /// Adds a file, after all others. Files with the same bytes share one image, where that is seen.
    /// The files stay as they are where memory is refused.
    pub fn add(&mut self, alloc: Global, name: Name, image: Image) -> Result<(), AllocError>
        requires new { All (λ file. file.name ≢ name) self.old }
        requires fit { IsFit image.content }
        ensures ok { IfOk result
            (λ _. self.new ≡ self.old ++ (record { name = name; image = image }) ∷ []) }
        ensures err { IfErr result (λ _. self.new ≡ self.old) }
    {
        file_is_sound(&name, &image);
        let zone = self.images.add(image)?;
        let number = self.entries.len();
        self.entries.push(Entry { name, zone })?;
        match self.names.add(alloc, &self.entries, number) {
            Ok(()) => Ok(()),
            Err(error) => {
                self.entries.pop();
                Err(error)
            }
        }
    }

    /// Returns the number of files.
    pub fn len(&self) -> usize
        ensures count { result ≡ length self.now }
        ensures sound { AreSoundFiles self.now }
    {
        self.entries.len()
    }

    /// Returns the name of a file, by the file's number from 0.
    pub fn name(&self, i: usize) -> &[u8]
        requires { i < length self.now }
        ensures name { IfSome (slice_get self.now i) (λ file. result.now ≡ file.name) }
        ensures sound { is_name result.now ≡ true }
    {
        self.entries[i].name.octets()
    }

    /// Returns the bytes of a file, by the file's number from 0.
    pub fn bytes(&self, i: usize) -> &[u8]
        requires { i < length self.now }
        ensures { IfSome (slice_get self.now i) (λ file. result.now ≡ file.image.octets) }
    {
        self.image(i).octets()
    }

    /// Returns the zone that a reader makes of the bytes of a file, by the file's number from 0.
    /// It leaves local time open at no instant, and local time is always within 24:00:00 of UT,
    /// under an abbreviation of 3 to 16 ASCII letters, digits, `+` and `-`.
    pub fn zone(&self, i: usize) -> &Zone
        requires { i < length self.now }
        ensures zone { IfSome (slice_get self.now i) (λ file. result.now ≡ file.image.content) }
        ensures read { IfSome (slice_get self.now i)
            (λ file. IsFile file.image.octets file.image.content) }
        ensures known { IsAlwaysKnown result.now }
    {
        // `len` also states that the files are sound.
        prove!(i < self.len());
        self.image(i).zone()
    }

    /// Returns whether two files share one image, by their numbers from 0. A link shares that of its zone.
    /// Files with images of their own may still have the same bytes.
    pub fn share_image(&self, i: usize, j: usize) -> bool
        requires first { i < length self.now }
        requires second { j < length self.now }
        ensures { result ≡ true → IfSome (slice_get self.now i)
            (λ a. IfSome (slice_get self.now j) (λ b. a.image ≡ b.image)) }
    {
        self.entries[i].zone == self.entries[j].zone
    }

    /// Returns the number of the file of this name, or `None` where no file has it. Looks it up by
    /// hash.
    pub fn find(&self, name: &[u8]) -> Option<usize>
        ensures found { IfSome result
            (λ i. IsSomeAnd (slice_get self.now i) (λ file. file.name ≡ name.now)) }
        ensures missing { IfNone result (All (λ file. file.name ≢ name.now) self.now) }
    {
        self.names.number(&self.entries, name)
    }

    /// Returns the image of a file.
    fn image(&self, i: usize) -> &Image
        requires { i < length self.now }
        ensures { IfSome (slice_get self.now i) (λ file. result.now ≡ file.image) }
    {
        self.images.get(self.entries[i].zone)
    }
}

/// States that a file of this name and image is sound: it gives local time at each instant.
fn file_is_sound(name: &Name, image: &Image)
    requires { IsFit image.now.content }
    ensures { IsSoundFile (record { name = name.now; image = image.now }) }
{
    states_have_numbers();
    footers_leave_nothing_open();
    // The name is one of a zone, and the zone is what a reader makes of the bytes.
    let _ = name.octets();
    let _ = image.zone();
}
