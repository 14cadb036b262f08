//! Files of a tree from outside, each read once its name is needed.

ghost use Rattle.std.specs.Prelude.{◌≡◌, true, [], ◌∷◌, ◌++◌, List, Some, All, Contains, ◌≢◌, IfOk, IfErr, IfSome, option_map};
ghost use Rattle.zic_lines.specs.Name.{is_name};
ghost use Rattle.zic_files.specs.Fit.{IsFit};
ghost use Rattle.zic_files.specs.Sound.{AreSoundFiles};
ghost use Rattle.zic_base.specs.Growth.{Gains};
ghost use Rattle.zic_files.specs.Tree.{Adds, AreRequestedOnce, AreOfName, GrowsBy, IsLearntFrom, IsSettled, Reply, files_named};
ghost use Rattle.zic_files.specs.code.Tree.{IsAtMostOne, IsImageOf};

use crate::files::Files;
use crate::image::{Image, Unfit};
use crate::names::Names;
use std::alloc::{AllocError, Global};
use std::marker::Model;
use zic_lines::Name;
use zic_tzif::laws::{files_have_no_fault, files_say_one};

/// A tree of files by name.
pub trait ZoneTree {
    ghost use Rattle.std.specs.Prelude.{List, Option, None};
    ghost use Rattle.zic_files.specs.Tree.{Reply};

    // what was requested of the tree and what it gave, in order, where that is known
    ghost replied: { Self → Option (List Reply) } = { λ _. None };

    /// Returns the bytes of the file of this name, or `None` where there is none.
    fn read(&mut self, alloc: Global, name: &Name) -> Result<Option<Vec<u8>>, AllocError>
        ensures ok { IfOk result (λ octets. Gains (replied self.old) (replied self.new)
            (record { name = name.now; octets = option_map (λ v. v.items) octets } ∷ [])) }
        ensures err { IfErr result (λ _. Gains (replied self.old) (replied self.new) []) };
}

/// The files of a tree that rows are made of, as far as their names were requested. Clauses see
/// the names and the files.
#[derive(Drop)]
pub struct TreeFiles {
    requested: Names,
    files: Files,
}

impl Model for TreeFiles {
    ghost use Rattle.zic_files.specs.Tree.{Learnt};

    ghost Value = { Learnt };

    ghost use Rattle.zic_files.specs.code.Tree.{AreOfNames};

    ghost view = { λ t. record { requested = t.requested; files = t.files } };

    ghost invariant = { λ t. AreOfNames t.requested t.files };
}

impl TreeFiles {
    /// Returns no files, of a tree of which nothing was requested. Names are looked up by this key: those
    /// that were chosen without knowing it don't make that slow. What is found doesn't depend on it.
    pub fn new(alloc: Global, key: u64) -> TreeFiles
        ensures { IsLearntFrom [] result }
    {
        TreeFiles {
            requested: Names::new(alloc, key),
            files: Files::none(alloc, key),
        }
    }

    /// Returns the files.
    pub fn files(&self) -> &Files
        ensures { result.now ≡ self.now.files }
    {
        &self.files
    }

    /// Requests a name of the tree, unless it was requested before or no zone may have it, and adds
    /// its file if rows can be made of it.
    ///
    /// # Errors
    ///
    /// Fails only where memory is refused for a name that is requested. What was learnt is open
    /// then.
    pub fn learn<T: ZoneTree>(
        &mut self,
        alloc: Global,
        tree: &mut T,
        name: &[u8],
    ) -> Result<(), AllocError>
        ensures ok { (replies : List Reply) → IsLearntFrom replies self.old
            → IfOk result (λ _. (more : List Reply)
            × Gains (T.replied tree.old) (T.replied tree.new) more
            × IsLearntFrom (replies ++ more) self.new × IsSettled (replies ++ more) name.now
            × AreOfName name.now more) }
        ensures err { (replies : List Reply) → IsLearntFrom replies self.old
            → IfErr result (λ _. (more : List Reply)
            × Gains (T.replied tree.old) (T.replied tree.new) more × AreRequestedOnce (replies ++ more)
            × AreOfName name.now more) }
        ensures grown { IfOk result (λ _. GrowsBy name.now self.old self.new) }
        ensures memory { IfErr result
            (λ _. (is_name name.now ≡ true) × (Contains self.old.requested name.now → ⊥)) }
    {
        if self.requested.has(name) {
            return Ok(());
        }
        match Name::parse(alloc, name) {
            Some(name) => self.request(alloc, tree, name?),
            None => Ok(()),
        }
    }

    /// Asks the tree for a name, and adds its file if rows can be made of it.
    fn request<T: ZoneTree>(
        &mut self,
        alloc: Global,
        tree: &mut T,
        name: Name,
    ) -> Result<(), AllocError>
        requires { Contains self.old.requested name → ⊥ }
        ensures ok { (replies : List Reply) → IsLearntFrom replies self.old
            → IfOk result (λ _. (reply : Reply)
            × Gains (T.replied tree.old) (T.replied tree.new) (reply ∷ [])
            × IsLearntFrom (replies ++ reply ∷ []) self.new × (reply.name ≡ name)) }
        ensures added { IfOk result (λ _. Adds name self.old self.new) }
        ensures err { (replies : List Reply) → IsLearntFrom replies self.old
            → IfErr result (λ _. (more : List Reply)
            × Gains (T.replied tree.old) (T.replied tree.new) more × AreRequestedOnce (replies ++ more)
            × AreOfName name more) }
    {
        // The name is one of a zone.
        let _ = name.octets();
        let image = image_of(alloc, tree, &name)?;
        self.keep(alloc, name, image)
    }

    /// Adds a name that was requested of the tree, and its file if there is an image.
    fn keep(&mut self, alloc: Global, name: Name, image: Option<Image>) -> Result<(), AllocError>
        requires new { Contains self.old.requested name → ⊥ }
        requires fit { IfSome image (λ i. IsFit i.content) }
        ensures requested { IfOk result (λ _. self.new.requested ≡ self.old.requested ++ name ∷ []) }
        ensures files { IfOk result
            (λ _. self.new.files ≡ self.old.files ++ files_named name image) }
        ensures sound { IfOk result (λ _. AreSoundFiles self.new.files) }
    {
        self.requested.add(alloc, &name)?;
        self.keep_file(alloc, name, image)
    }

    /// Adds the file of a name that was requested of the tree, if there is an image.
    fn keep_file(
        &mut self,
        alloc: Global,
        name: Name,
        image: Option<Image>,
    ) -> Result<(), AllocError>
        requires requested { Contains self.old.requested name }
        requires new { All (λ file. file.name ≢ name) self.old.files }
        requires fit { IfSome image (λ i. IsFit i.content) }
        ensures requested { IfOk result (λ _. self.new.requested ≡ self.old.requested) }
        ensures files { IfOk result
            (λ _. self.new.files ≡ self.old.files ++ files_named name image) }
        ensures sound { IfOk result (λ _. AreSoundFiles self.new.files) }
    {
        if let Some(image) = image {
            self.files.add(alloc, name, image)?;
        }
        // They are sound.
        let _ = self.files.len();
        Ok(())
    }
}

/// Returns the image of the file that a tree has under a name, or `None` where it has none that
/// rows can be made of.
fn image_of<T: ZoneTree>(
    alloc: Global,
    tree: &mut T,
    name: &Name,
) -> Result<Option<Image>, AllocError>
    ensures ok { IfOk result (λ image. (reply : Reply)
        × Gains (T.replied tree.old) (T.replied tree.new) (reply ∷ [])
        × (reply.name ≡ name.now) × IsImageOf reply image) }
    ensures err { IfErr result (λ _. IsAtMostOne (T.replied tree.old) (T.replied tree.new) name.now) }
{
    // Bytes that are refused are no file that rows can be made of.
    files_have_no_fault();
    files_say_one();
    let Some(octets) = tree.read(alloc, name)? else {
        return Ok(None);
    };
    match Image::read(alloc, octets) {
        Ok(image) => Ok(Some(image)),
        Err(Unfit::Memory) => Err(AllocError),
        Err(Unfit::Bad(_)) => Ok(None),
        Err(Unfit::NoFooter) => Ok(None),
        Err(Unfit::OutsideLimits) => Ok(None),
    }
}
