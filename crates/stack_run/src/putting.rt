ghost use Rattle.std.specs.Prelude.{◌≡◌, [], true, map, length, Err, IfErr, OnOk};
ghost use Rattle.image_store.specs.Place.{IsTaken, ChangesOnly};
ghost use Rattle.stack_run.specs.Chains.{Puts, PutsBack, PutsOr, SpentAmong, Chain, HaveOtherNames, AreTaken, PuttingStops, PutEnds};

use crate::refusal::{NotRun, Stopped};
use crate::wanted::Wanted;
use image_store::{Images, PutFault};
use std::alloc::Global;

// Puts a medium back under its image's name.
pub fn put_image<I: Images>(
    alloc: Global,
    want: &Wanted,
    images: &mut I,
    medium: I::M,
) -> Result<(), NotRun>
    requires taken { IsTaken (I.at images.old want.now.image).place }
    ensures puts { Puts result (I.M.device medium) (I.at images.old want.now.image)
        (I.at images.new want.now.image) }
    ensures others { ChangesOnly want.now.image (I.at images.old) (I.at images.new) }
{
    match images.put_back(alloc, want.image.as_str(), medium) {
        Ok(()) => Ok(()),
        Err(PutFault::Failed) => Err(NotRun::Image),
        Err(PutFault::Memory) => Err(NotRun::Memory),
    }
}

// Puts the media back in order, up to the first that cannot be put back.
fn put_some<I: Images>(
    alloc: Global,
    wanted: &[Wanted],
    images: &mut I,
    media: &mut Vec<I::M>,
) -> Result<(), Stopped>
    requires all { length media.old.items ≡ length wanted.now }
    requires apart { HaveOtherNames wanted.now }
    requires taken { AreTaken wanted.now (I.at images.old) }
    ensures put { OnOk result (Chain PutsBack wanted.now (map I.M.device media.old.items)
        (I.at images.old) (I.at images.new)) }
    ensures none { OnOk result (media.new.items ≡ []) }
    ensures stops { IfErr result (λ stop. PuttingStops wanted.now (map I.M.device media.old.items)
        (map I.M.device media.new.items) stop.place stop.fault (I.at images.old)
        (I.at images.new)) }
{
    for (place, want) in wanted.iter().enumerate() {
        let medium = media.remove(0);
        match put_image(alloc, want, images, medium) {
            Ok(()) => {}
            Err(fault) => return Err(Stopped { place, fault }),
        }
    }
    Ok(())
}

// Whether memory ran out in putting a medium back.
fn put_one<I: Images>(alloc: Global, want: &Wanted, images: &mut I, medium: I::M) -> bool
    requires taken { IsTaken (I.at images.old want.now.image).place }
    ensures puts { PutsOr result want.now (I.M.device medium) (I.at images.old want.now.image)
        (I.at images.new want.now.image) }
    ensures spent { result ≡ true → Puts (Err NotRun.Memory) (I.M.device medium)
        (I.at images.old want.now.image) (I.at images.new want.now.image) }
    ensures others { ChangesOnly want.now.image (I.at images.old) (I.at images.new) }
{
    match put_image(alloc, want, images, medium) {
        Ok(()) => false,
        Err(NotRun::Image) => false,
        Err(NotRun::Memory) => true,
    }
}

// Puts all media back in order, whatever becomes of each, and tells whether memory ran out.
pub fn put_rest<I: Images>(
    alloc: Global,
    wanted: &[Wanted],
    images: &mut I,
    mut media: Vec<I::M>,
) -> bool
    requires all { length media.items ≡ length wanted.now }
    requires apart { HaveOtherNames wanted.now }
    requires taken { AreTaken wanted.now (I.at images.old) }
    ensures put { Chain (PutsOr result) wanted.now (map I.M.device media.items) (I.at images.old)
        (I.at images.new) }
    ensures spent { result ≡ true → SpentAmong wanted.now (I.at images.old) (I.at images.new) }
{
    let mut spent = false;
    for want in wanted {
        let medium = media.remove(0);
        let one = put_one(alloc, want, images, medium);
        spent = spent | one;
    }
    media.destroy_empty();
    spent
}

// Puts all media back in order, each whatever became of those before. The error is the first that could not be put back,
// or want of memory for any.
pub fn put_images<I: Images>(
    alloc: Global,
    wanted: &[Wanted],
    images: &mut I,
    mut media: Vec<I::M>,
) -> Result<(), Stopped>
    requires all { length media.items ≡ length wanted.now }
    requires apart { HaveOtherNames wanted.now }
    requires taken { AreTaken wanted.now (I.at images.old) }
    ensures put { OnOk result (Chain PutsBack wanted.now (map I.M.device media.items)
        (I.at images.old) (I.at images.new)) }
    ensures stops { IfErr result (λ stop. PutEnds stop.fault wanted.now
        (map I.M.device media.items) stop.place (I.at images.old) (I.at images.new)) }
{
    let Stopped { place, fault } = match put_some(alloc, wanted, images, &mut media) {
        Ok(()) => {
            media.destroy_empty();
            return Ok(());
        }
        Err(stop) => stop,
    };
    if put_rest(alloc, &wanted[place + 1..], images, media) {
        Err(Stopped {
            place,
            fault: NotRun::Memory,
        })
    } else {
        Err(Stopped { place, fault })
    }
}
