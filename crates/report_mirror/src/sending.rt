//! That a mirror's writer and readers may cross from one thread to another.
use crate::generation::Generation;
use crate::mirror::MirrorWriter;
use crate::reader::{Looked, MirrorReader};

fn sent<T: Send>() {}

fn mirror_may_cross_threads() {
    sent::<Generation>();
    sent::<MirrorWriter>();
    sent::<MirrorReader>();
    sent::<Looked>();
}
