ghost use Rattle.std.specs.Prelude.{◌≡◌, ◌≤◌, [], map, vec_capacity, length, IfOk, IfErr, IsErr, IsErrOf, OnOk, OnErr};
ghost use Rattle.image_store.specs.Place.{IsFree, IsTaken, ChangesOnly};
ghost use Rattle.stack_run.specs.Media.{IsBackOrGone, IsUnmade, LacksBlocks};
ghost use Rattle.stack_run.specs.Chains.{TakesImage, Unmakes, Chain, IsWanted, AreWanted, HaveOtherNames, AreFree, TakingStops, LacksOne};

use crate::putting::put_image;
use crate::refusal::{NotRun, Stopped};
use crate::wanted::Wanted;
use image_store::{Images, TakeFault};
use medium::Medium;
use std::alloc::Global;

// Puts a medium back whose blocks are no whole groups, and tells what the image's refusal is.
fn refuse_medium<I: Images>(alloc: Global, want: &Wanted, images: &mut I, medium: I::M) -> NotRun
    requires taken { IsTaken (I.at images.old want.now.image).place }
    ensures puts { Unmakes (I.M.device medium) result (I.at images.old want.now.image)
        (I.at images.new want.now.image) }
    ensures others { ChangesOnly want.now.image (I.at images.old) (I.at images.new) }
{
    match put_image(alloc, want, images, medium) {
        Ok(()) => NotRun::Image,
        Err(fault) => fault,
    }
}

// Takes an image as a medium of whole groups.
pub fn take_image<I: Images>(alloc: Global, want: &Wanted, images: &mut I) -> Result<I::M, NotRun>
    requires want { IsWanted want.now }
    requires free { IsFree (I.at images.old want.now.image).place }
    ensures takes { IfOk result (λ medium. TakesImage want.now (I.M.device medium)
        (I.at images.old want.now.image) (I.at images.new want.now.image)) }
    ensures image { IsErrOf result NotRun.Image → IsUnmade want.now
        (I.at images.old want.now.image) (I.at images.new want.now.image) }
    ensures memory { IsErrOf result NotRun.Memory → IsBackOrGone (I.at images.old want.now.image)
        (I.at images.new want.now.image) }
    ensures lacks { LacksBlocks want.now (I.at images.old want.now.image).place → IsErr result }
    ensures free { OnErr result (IsFree (I.at images.new want.now.image).place) }
    ensures others { ChangesOnly want.now.image (I.at images.old) (I.at images.new) }
{
    let medium = match images.take(alloc, want.image.as_str(), want.size, want.cached) {
        Ok(medium) => medium,
        Err(TakeFault::Failed) => return Err(NotRun::Image),
        Err(TakeFault::Short) => return Err(NotRun::Image),
        Err(TakeFault::Memory) => return Err(NotRun::Memory),
    };
    if medium.blocks() % u64::from(want.physical) == 0 {
        Ok(medium)
    } else {
        Err(refuse_medium(alloc, want, images, medium))
    }
}

// Takes all images in order, up to the first that cannot be taken. The media have room for all.
pub fn take_images<I: Images>(
    alloc: Global,
    wanted: &[Wanted],
    images: &mut I,
    media: &mut Vec<I::M>,
) -> Result<(), Stopped>
    requires empty { media.old.items ≡ [] }
    requires room { length wanted.now ≤ vec_capacity media.old }
    requires wanted { AreWanted wanted.now }
    requires apart { HaveOtherNames wanted.now }
    requires free { AreFree wanted.now (I.at images.old) }
    ensures taken { OnOk result (Chain TakesImage wanted.now (map I.M.device media.new.items)
        (I.at images.old) (I.at images.new)) }
    ensures stops { IfErr result (λ stop. TakingStops wanted.now
        (map I.M.device media.new.items) stop.place stop.fault (I.at images.old)
        (I.at images.new)) }
    ensures lacks { LacksOne wanted.now (I.at images.old) → IsErr result }
{
    for (place, want) in wanted.iter().enumerate() {
        match take_image(alloc, want, images) {
            Ok(medium) => media.push_reserved(medium),
            Err(fault) => return Err(Stopped { place, fault }),
        }
    }
    Ok(())
}
